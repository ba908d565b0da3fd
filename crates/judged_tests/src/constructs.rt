//! Each form of expression, statement and declaration in programs that break no rule.

use crate::told::wrong_in;
use std::alloc::AllocError;

#[rattlefmt::skip]
const EXPRESSIONS: [(&str, &str); 6] = [
    (
        "\
int x,y;int main(void){x,y;x=y;x*=y;x/=2;x%=3;x+=y;x-=y;x<<=1;x>>=1;x&=y;x^=y;x|=y;x?y:x,y;x||y;x&&y;x|y;x^y;x&y;x==y;\
x!=y;x<y;x>y;x<=y;x>=y;x<<y;x>>y;x+y;x-y;x*y;x/y;x%y;}",
        "fits",
    ),
    (
        "\
int x,*p=&x,a[2];struct s{int m;}v,*q=&v;int f(int n,int*r){return n;}int main(void){&x;*p;+x;-x;~x;!x;++x;--x;x++;x--;\
a[1];a[x=0,1];f(1,p);f((1,2),0);getpid();v.m;q->m;(f)(1,0);!!x;- -x;-~+x;**&p;&*p;&a[1];sizeof x+1;-x*x;}",
        "fits",
    ),
    (
        "\
int x;int main(void){(char)x;(short)x;(unsigned long long)x;(const int)x;(void)x;(int*)x;(const char*const)&x;\
(int(*)(int,char*))0;(struct s{int a;}*)&x;(enum{K})x;(size_t)x;(int**)0;}",
        "fits",
    ),
    (
        "\
int x,a[2];int main(void){sizeof x;sizeof(x);sizeof a[1];sizeof(int);sizeof(int*);sizeof(struct s{int a;});\
sizeof(int(*)(void));sizeof sizeof x;sizeof-x;sizeof(int)*2;sizeof(size_t);sizeof\"abc\";sizeof(enum{K});sizeof(void);}",
        "fits",
    ),
    (
        "\
int main(void){0;00;017;0x1F;0X1f;1u;1U;1l;1L;1ll;1LL;1ul;1lu;1ull;1LLU;'a';'\\n';\
'\\'';'\\0';'\\177';'\\x7f';'\"';\"\";\"a\" \"b\";\"\\\"\\\\\\t\\x41\\101\";18446744073709551615u;}",
        "fits",
    ),
    ("int x,*p;int main(void){((x));(((p)));*(&(x));(*p)++;(p)[0];((x,x));(x?x:x)?x:x;x?x:x?x:x;x=x=x;x=(x,x);}", "fits"),
];

#[rattlefmt::skip]
const STATEMENTS: [(&str, &str); 6] = [
    (
        "\
int x;int main(void){;x;{}{;}{int y;y=x;}if(x);if(x)x;else;if(x)if(x);else;else;while(x)x--;do x++;while(x<3);do{}\
while(0);}",
        "fits",
    ),
    (
        "\
int x;int main(void){for(;;)break;for(x=0;x<3;x++);for(int i=0,j=1;i<j;i++){continue;}for(int i=0;;){if(i)break;\
else i++;}for(;x;);for(;;x)break;for(x;;)break;}",
        "fits",
    ),
    (
        "\
int x;int main(void){switch(x){}switch(x){case 1:case 2:x=1;break;default:;case-3:{int y=x;x=y;}}switch(x){int y;\
case 0:y=1;x=y;}while(x){switch(x){case 1:continue;default:break;}break;}}",
        "fits",
    ),
    ("int f(int x){if(x)return 1;else return 2;}void g(void){return;}int main(void){again:if(f(1))goto out;goto again;out:;end:}", "fits"),
    ("int main(void){int i=3;while(i)do for(;i;)switch(i){default:if(i)i--;else break;}while(0);return i;}", "fits"),
    (
        "\
int main(void){static int a=1;extern int b;int c(void);struct s{int d;}e;enum{F,G}h=F;const volatile int i=G;struct t;\
enum{J};int k,*l=&k,m[2],n[]={1},(*o)(int)=0;return a+h+i+e.d*0+J+n[0]+(o==0)+(l==m);}",
        "fits",
    ),
];

#[rattlefmt::skip]
const DECLARATIONS: [(&str, &str); 11] = [
    (
        "\
char a;signed char b;unsigned char c;short d;short int e;signed short f;unsigned short int g;int h;signed i;\
signed int j;unsigned k;unsigned int l;long m;long int n;signed long o;unsigned long p;long unsigned int q;\
int main(void){}",
        "fits",
    ),
    (
        "\
long long a;long long int b;signed long long c;unsigned long long d;long int long unsigned e;int short f;int unsigned g;\
long signed h;int long signed long i;const int j;int const k;volatile const int l;const volatile unsigned const m;\
int main(void){}",
        "fits",
    ),
    (
        "\
size_t a;ssize_t b;off_t c;time_t d;clock_t e;ptrdiff_t f;intptr_t g;int64_t h;uintptr_t i;uint64_t j;pthread_t k;\
nfds_t l;pid_t m;clockid_t n;int32_t o;sig_atomic_t p;uid_t q;gid_t r;mode_t s;socklen_t t;uint32_t u;in_addr_t v;\
int main(void){}",
        "fits",
    ),
    (
        "\
uint16_t a;sa_family_t b;in_port_t c;int16_t d;uint8_t e;int8_t f;sigset_t g;siginfo_t h;FILE i;pthread_attr_t j;\
pthread_mutex_t k;pthread_mutexattr_t l;pthread_cond_t m;pthread_condattr_t n;sem_t o;fd_set p;int main(void){}",
        "fits",
    ),
    (
        "\
struct timespec a;struct timeval b;struct stat c;struct pollfd d;struct tm e;struct tms f;struct in_addr g;\
struct sockaddr h;struct sockaddr_in i;struct sockaddr_un j;struct utsname k;struct sigaction l;int main(void){\
return a.tv_sec+b.tv_usec+c.st_mode+d.fd+e.tm_hour+f.tms_utime+g.s_addr+h.sa_family+i.sin_port+j.sun_path[0]+k.machine[1]+l.sa_flags;\
}",
        "fits",
    ),
    (
        "\
int*a,**b,*const c=0,*volatile*const d=0,e[1],f[1][2],*g[2],(*h)(void),(*i[2])(int,char*),*(*j)(void),\
(*const k)(void)=0,l(void),*m(int a,int),n();int main(void){}",
        "fits",
    ),
    (
        "\
int f(int a,int*b,int c[],int d[2][3],int(*e)(int),int(*g[2])(void),int,int*,int(*)(int),int*(*)(void),const char*const,\
struct stat*,enum{A},size_t h,void*);int main(void){}",
        "fits",
    ),
    (
        "\
typedef int A,*B,C[2],D(int),(*E)(void),(*F[2])(A);typedef struct s{A a;}S,*T;typedef enum{K}U;typedef const int V;A a;\
B b=&a;C c;D*d;E e;F f;S s;T t=&s;U u;V v=K;int main(void){return a+*b+c[0]+(d==0)+(e==0)+(f[0]==0)+s.a+t->a+u+v;}",
        "fits",
    ),
    (
        "\
struct s;struct s*p;struct s{const int a,*b;volatile struct{int c;}d;enum e{E=1,F,}e;int g[F];int(*h[2])(struct s*);};\
enum e x=E;enum{G}y,*z=(void*)0;static struct s v;extern struct s w;static enum e k(void){return F;}int main(void){\
return k();}",
        "fits",
    ),
    (
        "\
static int f(void);extern int g(void);int*h(void){return 0;}static const char*const i(const int*const a){return\"x\";}\
extern void j(void){}struct stat*k(void){return 0;}int main(void){f();return g();}static int f(void){return 0;}\
int g(void){return 1;}",
        "fits",
    ),
    (
        "\
#include <signal.h>\n#include <stdio.h>\nstatic volatile sig_atomic_t stop;\nstatic void on(int s)\n{\n\tint e = errno;\n\
\tstop = 1;\n\terrno = e;\n}\n\nint main(void)\n{\n\tstruct sigaction sa = { .sa_handler = on };\n\tsigemptyset(&sa.sa_mask);\n\
\tif (sigaction(SIGINT, &sa, NULL) < 0)\n\t\treturn 1;\n\twhile (!stop)\n\t\tpause();\n\tprintf(\"%d\\n\", (int)stop);\n\treturn 0;\n}\n",
        "fits",
    ),
];

/// As C is usually written.
#[rattlefmt::skip]
const USUAL: [(&str, &str); 7] = [
    (
        "\
char*argv2[]={\"sh\",0,NULL};int main(void){char*p;if((p=malloc(10))==NULL)return 1;while((*p=read(0,p,10))>0);\
execv(argv2[0],argv2+1);execl(\"a\",\"b\",(char*)0);}",
        "fits",
    ),
    ("struct s{int a,m;};int main(void){(size_t)&((struct s*)0)->m;*(volatile int*)0=1;((char*)0)[1]=2;}", "fits"),
    ("int main(void){struct sockaddr_un a={.sun_family=AF_UNIX};strcpy(a.sun_path,\"x\");bind(0,(struct sockaddr*)&a,sizeof a);}", "fits"),
    ("const char*s;int main(void){s=errno?\"a\":NULL;s=errno?\"a\":\"b\";s=errno==EINTR?0:s;}", "fits"),
    (
        "\
static const struct sigaction sa={.sa_handler=SIG_IGN};struct pollfd p[2]={{.fd=0,.events=POLLIN}};const int sigs[]={\
SIGINT,SIGTERM};int main(void){sigaction(SIGINT,&sa,NULL);poll(p,2,-1);for(size_t i=0;i<sizeof(sigs)/sizeof(sigs[0]);\
i++)kill(0,sigs[i]);}",
        "fits",
    ),
    (
        "\
void*w(int*p){return p;}pthread_t t;int main(void){pthread_create(&t,NULL,(void*(*)(void*))w,NULL);(void)signal(SIGINT,\
SIG_IGN);while(wait(NULL)>0);}",
        "fits",
    ),
    (
        "\
static void h(int sig){(void)sig;}typedef void(*handler_t)(int);static handler_t old=h;int main(void){old=signal(SIGINT,\
old);if(old==SIG_ERR)exit(EXIT_FAILURE);memset(&old,0,sizeof(old));}",
        "fits",
    ),
];

/// Where the first node stands that breaks a rule: its first token.
#[rattlefmt::skip]
const PLACES: [(&str, &str); 18] = [
    ("# 7 \"b.c\"\nint main(void){x;}", "UnknownName 7:16"),
    ("int main(void){return(x);}", "UnknownName 1:23"),
    ("int*p;int main(void){return(p*2);}", "KindMismatch 1:29"),
    ("int*p;int main(void){return 1+((p)*2);}", "KindMismatch 1:32"),
    ("int*p;int main(void){1,p*2,x;}", "KindMismatch 1:24"),
    ("int a;int main(void){a=\"s\"\n\"t\"*a;}", "KindMismatch 1:24"),
    ("int x;int main(void){\n\tif (x)\n\t\t++x\n\t\t  = 1;\n}", "NotAssignable 3:3"),
    ("int main(void){int x; int * * x;}", "DeclaredTwice 1:27"),
    ("static\nconst int\n*a = 1;int main(void){}", "KindMismatch 3:1"),
    ("enum e { A, B,\n  C = 1 / 0\n};int main(void){}", "NotConstant 2:3"),
    ("void f(int a, /* b */ const void b);int main(void){}", "KindMismatch 1:23"),
    ("int main(void){return 1 + ( /* c */ struct stat)0;}", "LeftOut 1:27"),
    ("struct s{int a;}v;int main(void){return (1)+(v).b;}", "UnknownName 1:45"),
    ("struct s{int a;}v[2];int main(void){return (1)+v[1].b;}", "UnknownName 1:48"),
    ("int main(void){l: ;\n   l\n : ;}", "DeclaredTwice 2:4"),
    ("int main(void){for (;;) if (1) return \"x\";}", "KindMismatch 1:32"),
    ("int main(void){int x =\n{ 1 };}", "KindMismatch 2:1"),
    ("void g(void){}int main(void){for (;;) while (g()) ;}", "KindMismatch 1:39"),
];

#[test]
fn each_construct(rt: HostRuntime) -> Result<(), AllocError> {
    let tables: [&[(&str, &str)]; 5] = [&EXPRESSIONS, &STATEMENTS, &DECLARATIONS, &USUAL, &PLACES];
    assert_eq!(rt; wrong_in(rt.alloc(), &tables)?, None);
    Ok(())
}

//! Cases, enumerators, sizes and the initialisers of static objects are constants (C11 6.6, 6.7.2.2p2, 6.7.6.2, 6.7.9p4, 6.8.4.2p3).

use crate::told::wrong_in;
use std::alloc::AllocError;

/// A case is a value of the promoted type of its switch.
#[rattlefmt::skip]
const CASES: [(&str, &str); 12] = [
    (
        "\
enum{A=5};int main(void){switch(1){case 1+2*3:;case-1:;case~1:;case!1:;case 1?2:3:;case(4):;case'a':;case A:;\
case SIGINT:;case SIG_BLOCK:;}}",
        "fits",
    ),
    ("int main(void){switch(1){case 1<2:;case NULL:;case 7/2:;case 7%5+3:;case 1<<4:;case 6&12:;case 100>>1|1:;case 1^10:;}}", "fits"),
    ("int x;int main(void){switch(x){case x:;}}", "NotConstant 1:32"),
    ("int main(void){switch(1){case EINTR:;}}", "NotConstant 1:26"),
    ("int main(void){switch(1){case(1,2):;}}", "NotConstant 1:26"),
    ("int main(void){switch(1){case getpid():;}}", "NotConstant 1:26"),
    ("int main(void){switch(1){case\"a\"==0:;}}", "NotConstant 1:26"),
    ("int main(void){switch(1){case*\"a\":;}}", "NotConstant 1:26"),
    ("int main(void){switch(1){case 0&&1/0:;case 1?2:1/0:;case 1||1/0:;}}", "fits"),
    ("enum e{A,B};int main(void){enum e x=A;switch(x){case A:return B;case B:return A;}}", "fits"),
    ("int main(void){enum{A=1};{int A=2;switch(A){case A:;}}}", "NotConstant 1:45"),
    ("int main(void){switch(1u){case-2+1:;}}", "NotConstant 1:27"),
];

/// An enumerator is a value of int.
#[rattlefmt::skip]
const ENUMERATORS: [(&str, &str); 6] = [
    ("enum{A=1,B,C=B*2,D=-1,E};int main(void){switch(1){case E:;case D+2:;case C-3:;}}", "DeclaredTwice 1:69"),
    ("enum{A=2147483647,B};int main(void){}", "NotConstant 1:19"),
    ("enum{A=-2147483647-1};int main(void){}", "fits"),
    ("enum{A=SIGINT,B='a',C=1?2:3,D=!A,E=INT_MAX};int main(void){}", "fits"),
    ("struct s{enum{A=1<<31}k;};int main(void){}", "NotConstant 1:15"),
    ("int main(void){return sizeof(enum{A=-1u});}", "NotConstant 1:35"),
];

/// A size is made of constants, and isn't evaluated.
#[rattlefmt::skip]
const SIZES: [(&str, &str); 7] = [
    ("enum{N=2};int a[3],b[N],c[N*2+1],d[sizeof(int)],e[BUFSIZ],f[PATH_MAX+1],g['a'],h[1?2:3],i[(4)],j[SIGINT];int main(void){}", "fits"),
    ("int x;int a[sizeof x],b[sizeof(x)+1];int main(void){char c[sizeof a];}", "fits"),
    ("int main(void){int a[getpid()];}", "NotConstant 1:20"),
    ("int a[(1,2)];int main(void){}", "NotConstant 1:5"),
    ("int a[\"s\"];int main(void){}", "NotConstant 1:5"),
    ("int n;void f(int a[n]){}int main(void){}", "NotConstant 1:14"),
    ("int main(void){int n=2;{int b[n];}}", "NotConstant 1:29"),
];

/// The initialiser of a static object is made of constants, addresses of static objects, and names of static arrays and of functions.
#[rattlefmt::skip]
const STATIC_FITS: [(&str, &str); 4] = [
    (
        "\
int x=1,y=-1,z='c',w=sizeof(int),e=EINTR,f=O_RDWR|O_CREAT,c=1?2:3,n=!0,m=~0;long l=(long)1;\
unsigned char u=(unsigned char)300;int main(void){}",
        "fits",
    ),
    ("char*s=\"abc\",t[]=\"abc\",*u=&\"abc\"[1],*v=\"a\"+1;void*p=(void*)1;int main(void){}", "fits"),
    ("int x;int main(void){extern int x;static int*p=&x;}", "fits"),
    ("enum{A=3};int x=A,a[A]={A,A+1},b=1/0,c=sizeof a;int main(void){}", "fits"),
];

/// Of nothing else.
#[rattlefmt::skip]
const STATIC_BREAKS: [(&str, &str); 8] = [
    ("int f(void){return 0;}int x=f();int main(void){}", "NotConstant 1:27"),
    ("int*p;int x=*p;int main(void){}", "NotConstant 1:11"),
    ("struct s{int m;}*p;int *q=&p->m;int main(void){}", "NotConstant 1:24"),
    ("int main(void){int a[2];static int *p=a;}", "NotConstant 1:36"),
    ("int x;int a[2][2]={{1,2},{3,x}};int main(void){}", "NotConstant 1:11"),
    ("int x;struct s{int m;}v={.m=x};int main(void){}", "NotConstant 1:23"),
    ("int x;long y=(long)x;int main(void){}", "NotConstant 1:12"),
    ("void(*h)(int);void (*k)(int)=h;int main(void){}", "NotConstant 1:20"),
];

#[test]
fn constant_expressions(rt: HostRuntime) -> Result<(), AllocError> {
    let tables: [&[(&str, &str)]; 5] = [&CASES, &ENUMERATORS, &SIZES, &STATIC_FITS, &STATIC_BREAKS];
    assert_eq!(rt; wrong_in(rt.alloc(), &tables)?, None);
    Ok(())
}

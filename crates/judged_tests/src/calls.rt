//! What is called is a function, with as many arguments as it has parameters, each of its type (C11 6.5.2.2p1, p2).

use crate::told::wrong_in;
use std::alloc::AllocError;

/// A function, or an expression that is a pointer to one.
#[rattlefmt::skip]
const CALLEES: [(&str, &str); 7] = [
    ("int x;int main(void){return x();}", "NotCallable 1:29"),
    ("int*p;int main(void){return p();}", "NotCallable 1:29"),
    ("int f(void){return 0;}int main(void){return f()();}", "NotCallable 1:45"),
    ("int f(void){return 0;}int main(void){return (f)()+(*f)()+(**f)()+(&f)();}", "fits"),
    ("int main(void){return errno();}", "NotCallable 1:23"),
    ("enum{A};int main(void){return A();}", "NotCallable 1:31"),
    ("int main(void){int write=1;return write(1,\"x\",1);}", "NotCallable 1:35"),
];

/// Of the unit's functions.
#[rattlefmt::skip]
const COUNTS: [(&str, &str); 4] = [
    ("int f(int a,int b){return a+b;}int main(void){return f(1);}", "WrongCount 1:54"),
    ("int f(int a,int b){return a+b;}int main(void){return f(1,2,3);}", "WrongCount 1:54"),
    ("int f(){return 0;}int main(void){return f();}", "fits"),
    ("struct s{void(*h)(int);}v;int main(void){v.h();}", "WrongCount 1:42"),
];

/// Of library functions.
#[rattlefmt::skip]
const LIBRARY_COUNTS: [(&str, &str); 7] = [
    ("int main(void){return getpid(1);}", "WrongCount 1:23"),
    ("int main(void){open(\"x\");}", "WrongCount 1:16"),
    ("int main(void){openat(0,\"x\",0);openat(0,\"x\",0,0);}", "fits"),
    ("int main(void){execl(\"a\",\"b\");execl(\"a\",\"b\",0);execl(\"a\",\"b\",\"c\",0);}", "fits"),
    ("pthread_t t;int main(void){pthread_create(&t,0,0);}", "WrongCount 1:28"),
    ("int main(void){sigaction(SIGINT,0);}", "WrongCount 1:16"),
    ("int main(void){time();}", "WrongCount 1:16"),
];

/// Each argument may stand where its parameter is due.
#[rattlefmt::skip]
const ARGUMENTS: [(&str, &str); 6] = [
    ("int f(int*p){return*p;}int main(void){return f((0));}", "KindMismatch 1:46"),
    ("int f(int a){return a;}int main(void){return f('c')+f(1ul)+f(NULL)+f(errno)+f(EINTR);}", "fits"),
    ("int f(int(*g)(int)){return g(1);}int h(void){return 0;}int main(void){return f(h);}", "KindMismatch 1:78"),
    ("int f(int a[2]){return a[0];}int b[2][2];int main(void){return f(b[0])+f(b[1])+f(0);}", "fits"),
    ("struct s{int a;}v;int f(int a){return a;}int main(void){return f(v);}", "KindMismatch 1:64"),
    ("int f(int a){return a;}int main(void){return f(f(\"x\"));}", "KindMismatch 1:48"),
];

/// Each argument of a library function fits its mark.
#[rattlefmt::skip]
const LIBRARY_ARGUMENTS: [(&str, &str); 11] = [
    ("int main(void){write(1,(0),1);}", "KindMismatch 1:16"),
    ("int main(void){write(1,\"x\",\"x\");}", "KindMismatch 1:16"),
    ("char b[4];int main(void){read(0,b,4);read(0,&b,4);read(0,b+1,3);}", "fits"),
    ("sigset_t s;int main(void){sigemptyset(s);}", "KindMismatch 1:27"),
    ("void h(void){}int main(void){signal(SIGINT,h);}", "KindMismatch 1:30"),
    ("pthread_t t;int main(void){pthread_create(&t,0,0,0);}", "KindMismatch 1:28"),
    ("int q(void){return 0;}int main(void){pthread_atfork(0,q,0);}", "KindMismatch 1:38"),
    ("int x;int main(void){printf(\"x\",1,\"y\",&x,getpid(),NULL,errno);}", "fits"),
    ("struct s{int a;}v;int main(void){printf(\"x\",v);}", "KindMismatch 1:34"),
    ("int main(void){printf(\"x\",free(0));}", "KindMismatch 1:16"),
    ("int main(void){FILE*f=fopen(\"x\",\"r\");fputs(\"x\",stdout);fclose(f);}", "fits"),
];

/// A call of a library function has the type of its result.
#[rattlefmt::skip]
const RESULTS: [(&str, &str); 4] = [
    ("char*p;int main(void){p=strchr(\"x\",'x');p=getenv(\"x\");p=malloc(1);return strlen(p);}", "fits"),
    ("int main(void){if(abort());}", "KindMismatch 1:16"),
    ("int main(void){return signal(SIGINT,SIG_DFL);}", "KindMismatch 1:16"),
    ("int main(void){return*fopen(\"a\",\"b\");}", "KindMismatch 1:16"),
];

#[test]
fn calls(rt: HostRuntime) -> Result<(), AllocError> {
    let tables: [&[(&str, &str)]; 6] = [
        &CALLEES,
        &COUNTS,
        &LIBRARY_COUNTS,
        &ARGUMENTS,
        &LIBRARY_ARGUMENTS,
        &RESULTS,
    ];
    assert_eq!(rt; wrong_in(rt.alloc(), &tables)?, None);
    Ok(())
}

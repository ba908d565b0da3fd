//! Where names begin and end, and what they hide (C11 6.2.1, 6.2.2, 6.8p3, 6.8.4p3, 6.8.5p5).

use crate::told::wrong_in;
use std::alloc::AllocError;

/// A name begins behind its declarator, a tag where it stands, an enumerator behind its value.
#[rattlefmt::skip]
const BEGINNINGS: [(&str, &str); 4] = [
    ("int main(void){int x=x;return x;}", "fits"),
    ("int main(void){int a[sizeof a];}", "UnknownName 1:29"),
    ("enum{A=A};int main(void){}", "UnknownName 1:8"),
    ("void f(int b[sizeof a],int a){}int main(void){}", "UnknownName 1:21"),
];

/// What a local name hides, and with which type.
#[rattlefmt::skip]
const HIDDEN: [(&str, &str); 7] = [
    ("int x;int main(void){char*x=0;return x*2;}", "KindMismatch 1:38"),
    ("int main(void){int SIGINT=1;switch(1){case SIGINT:;}}", "NotConstant 1:39"),
    ("int main(void){int SIG_DFL=0;void(*h)(int);h=SIG_DFL;}", "KindMismatch 1:44"),
    ("int f(int EOF){int a[EOF];return 0;}int main(void){}", "NotConstant 1:20"),
    ("struct s{int a;};int main(void){struct s*p=0;return p->a;}", "fits"),
    ("struct s{int a;}v;int main(void){struct t{int b;};{struct s{struct t t;}w;return w.t.b+v.a;}}", "fits"),
    ("struct stat;struct stat v;int main(void){}", "KindMismatch 1:25"),
];

/// if, switch, loops and each of their parts are blocks.
#[rattlefmt::skip]
const STATEMENTS: [(&str, &str); 7] = [
    ("int main(void){if(1)return sizeof(enum{A});else return A;}", "UnknownName 1:56"),
    ("int main(void){do sizeof(enum{A});while(A);}", "UnknownName 1:41"),
    ("int main(void){for(enum{A}k=0;k;);return A;}", "UnknownName 1:42"),
    ("int main(void){switch(1){case 1:;int x;}return x;}", "UnknownName 1:48"),
    ("int main(void){for(struct{int a;}v={0};v.a<2;v.a++);}", "fits"),
    ("int main(void){for(static int i=0;i<2;i++);for(extern int j;0;);}", "fits"),
    ("int main(void){return A+sizeof(enum{A=2});}", "UnknownName 1:23"),
];

/// An extern name, and a function's, in a block is the one of the file.
#[rattlefmt::skip]
const LINKAGE: [(&str, &str); 4] = [
    ("int x;int main(void){extern char *x;}", "KindMismatch 1:34"),
    ("int f(void){return 0;}int main(void){int f(int);}", "KindMismatch 1:42"),
    ("int f(void){static int x;static int y=1;return x+y;}int g(void){static int x;return x;}int main(void){}", "fits"),
    ("int f(void){return 0;}int main(void){int f=0;{extern int f;}}", "KindMismatch 1:58"),
];

/// Declarations of one name have types that match.
#[rattlefmt::skip]
const AGAIN: [(&str, &str); 5] = [
    ("int a[2];int a[2][2];int main(void){}", "KindMismatch 1:14"),
    ("struct s{int a;}v;struct s v;sigset_t g;sigset_t g;int main(void){}", "fits"),
    ("extern pthread_mutex_t m;pthread_mutex_t m=PTHREAD_MUTEX_INITIALIZER;extern pthread_mutex_t m;int main(void){}", "fits"),
    ("void(*h)(int);void (*h)(int,int);int main(void){}", "KindMismatch 1:20"),
    ("int main(void);int main(int c,char**v){return 0;}", "KindMismatch 1:16"),
];

#[test]
fn where_names_begin_and_end(rt: HostRuntime) -> Result<(), AllocError> {
    let tables: [&[(&str, &str)]; 5] = [&BEGINNINGS, &HIDDEN, &STATEMENTS, &LINKAGE, &AGAIN];
    assert_eq!(rt; wrong_in(rt.alloc(), &tables)?, None);
    Ok(())
}

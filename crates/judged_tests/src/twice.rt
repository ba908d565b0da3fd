//! A name, a tag, a member, a label and a case stand once (C11 6.7p3, 6.7.2.3p1, 6.8.1p3, 6.8.4.2p3, 6.9p3).

use crate::told::wrong_in;
use std::alloc::AllocError;

/// One block declares a name once; names with linkage may stand again as such.
#[rattlefmt::skip]
const BLOCKS: [(&str, &str); 14] = [
    ("int main(void){int x;int (*x)(void);}", "DeclaredTwice 1:26"),
    ("int main(void){int x;{int x;}}", "fits"),
    ("void f(int a){int a;}int main(void){}", "DeclaredTwice 1:19"),
    ("void f(int(*a)(int b,int b)){}int main(void){}", "DeclaredTwice 1:22"),
    ("int main(void){for(int i=0,i=1;;);}", "DeclaredTwice 1:28"),
    ("int main(void){int x=1;for(int x=0;x;);return x;}", "fits"),
    ("int main(void){enum{A};{enum{A=2};return A;}}", "fits"),
    ("int main(void){enum{A,A};}", "DeclaredTwice 1:23"),
    ("int main(void){int a;\nint a;\n}", "DeclaredTwice 2:5"),
    ("enum{x}x;int main(void){}", "DeclaredTwice 1:8"),
    ("int x[sizeof(enum{x})];int main(void){}", "DeclaredTwice 1:5"),
    ("int main(void){int x[sizeof(enum{x})];}", "DeclaredTwice 1:20"),
    ("int(*p[sizeof(enum{p})])(void)={0};int main(void){}", "DeclaredTwice 1:4"),
    ("int main(void){static int x[sizeof(enum{x})];}", "DeclaredTwice 1:27"),
];

/// At file scope a name is one object or one function, with one initialiser or one body.
#[rattlefmt::skip]
const FILES: [(&str, &str); 5] = [
    ("int x;int x;int main(void){return x;}", "fits"),
    ("extern int x=1;int x=1;int main(void){}", "DeclaredTwice 1:20"),
    ("int f(void){return 0;}int f(void){return 1;}int main(void){}", "DeclaredTwice 1:23"),
    ("int f(int a);int f(int b);int f(int c){return c;}int main(void){return f(1);}", "fits"),
    ("enum{A};int A;int main(void){}", "DeclaredTwice 1:13"),
];

/// A tag has members or enumerators once in a block, and is a structure's or an enumeration's; where no node holds it, the declaration tells.
#[rattlefmt::skip]
const TAGS: [(&str, &str); 8] = [
    ("struct s{int a;};enum s{A};int main(void){}", "DeclaredTwice 1:18"),
    ("struct s{struct s{int b;}v;};int main(void){}", "DeclaredTwice 1:1"),
    ("void f(struct s{int a;}*p,struct s{int b;}*q){}int main(void){}", "DeclaredTwice 1:27"),
    ("int main(void){struct s{int a;};(struct s{int b;}*)0;}", "DeclaredTwice 1:33"),
    ("int main(void){return sizeof(enum e{A})+sizeof(enum e{B});}", "DeclaredTwice 1:41"),
    ("struct stat{int a;};struct stat v;int main(void){return v.a;}", "fits"),
    ("enum stat{A};int main(void){}", "fits"),
    ("int main(void){struct s*p;enum s{A};}", "DeclaredTwice 1:27"),
];

/// A structure has a member of one name once.
#[rattlefmt::skip]
const MEMBERS: [(&str, &str); 4] = [
    ("struct s{int a;int (*a)(void);};int main(void){}", "DeclaredTwice 1:20"),
    ("struct s{int s;};int main(void){}", "fits"),
    ("struct s{enum{A}k;enum{A}l;};int main(void){}", "DeclaredTwice 1:24"),
    ("int main(void){struct{int a,b,a[2];}v;}", "DeclaredTwice 1:31"),
];

/// A name of file scope, and an enumerator anywhere, is none of the implementation's; other names may be.
#[rattlefmt::skip]
const RESERVED: [(&str, &str); 5] = [
    ("int write(int a){return a;}int main(void){}", "DeclaredTwice 1:1"),
    ("int main(void){enum{EINTR=1};}", "DeclaredTwice 1:21"),
    ("void (*free)(void*p);int main(void){}", "DeclaredTwice 1:6"),
    ("int main(void){int errno=1,SIGINT=2,setjmp=3,EINTR=4,NULL=5,stdin=6;return errno+SIGINT+setjmp+EINTR+NULL+stdin;}", "fits"),
    ("struct write{int read;};int main(void){read:;struct write v;v.read=1;goto read;}", "fits"),
];

/// A label stands once in its function.
#[rattlefmt::skip]
const LABELS: [(&str, &str); 4] = [
    ("int main(void){l:;l:;}", "DeclaredTwice 1:19"),
    ("int main(void){l:;{l:;}}", "DeclaredTwice 1:20"),
    ("int main(void){{l:;}{l:;}}", "DeclaredTwice 1:22"),
    ("void f(void){l:;}int main(void){l:;}", "fits"),
];

/// In one switch a value and default stand once.
#[rattlefmt::skip]
const CASES: [(&str, &str); 5] = [
    ("int main(void){switch(1){case 1:switch(2){case 1:;}}}", "fits"),
    ("int main(void){switch(1){default:;default:;}}", "DeclaredTwice 1:35"),
    ("int main(void){switch(1){default:switch(2){default:;}}}", "fits"),
    ("enum e{A,B};int main(void){enum e x=A;switch(x){case A:;case B-1:;}}", "DeclaredTwice 1:57"),
    ("int main(void){switch('a'){case'\\x61':;case'a':;}}", "DeclaredTwice 1:40"),
];

#[test]
fn what_stands_twice(rt: HostRuntime) -> Result<(), AllocError> {
    let tables: [&[(&str, &str)]; 7] = [
        &BLOCKS, &FILES, &TAGS, &MEMBERS, &RESERVED, &LABELS, &CASES,
    ];
    assert_eq!(rt; wrong_in(rt.alloc(), &tables)?, None);
    Ok(())
}

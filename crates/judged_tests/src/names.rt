//! Names, members, tags and labels are declared, and what is used is defined (C11 6.5.1p2, 6.5.2.3p1, 6.7.2.3, 6.8.6.1p1, 6.9p3, p5).

use crate::told::wrong_in;
use std::alloc::AllocError;

/// A name in an expression is declared before it, in a block around it, and is neither a member, a tag nor a label.
#[rattlefmt::skip]
const UNDECLARED: [(&str, &str); 9] = [
    ("int x;int main(void){return x;}", "fits"),
    ("int main(void){x=1;}", "UnknownName 1:16"),
    ("int main(void){int x=1;{return x;}}", "fits"),
    ("int a[n];int main(void){}", "UnknownName 1:7"),
    ("enum e{A=B,B};int main(void){}", "UnknownName 1:10"),
    ("int main(void){switch(1){case K:;}}", "UnknownName 1:31"),
    ("struct s{int a;}v={.a=b};int main(void){}", "NotConstant 1:17"),
    ("int main(void){int a;return a[b]+c;}", "UnknownName 1:31"),
    ("int main(void){while(more);}", "UnknownName 1:22"),
];

/// A function whose name stands in an expression, and an object that is used, is defined in the unit.
#[rattlefmt::skip]
const DEFINED: [(&str, &str); 7] = [
    ("int f(void);int main(void){return f();}", "UnknownName 1:35"),
    ("int f(void);int main(void){}", "fits"),
    ("int f(void);int(*p)(void)=f;int main(void){}", "UnknownName 1:27"),
    ("extern int a[];int a[2];int main(void){return a[0];}", "fits"),
    ("void f(void){extern int x;x=1;}int main(void){}", "UnknownName 1:27"),
    ("int main(void){int write(int a,char*b,int c);return write(1,\"x\",1);}", "UnknownName 1:53"),
    ("int main(void){int f(void);int g=sizeof(f());}", "UnknownName 1:41"),
];

/// A member is one of the structure.
#[rattlefmt::skip]
const MEMBERS: [(&str, &str); 7] = [
    ("struct s{struct{int b;}in;}v;int main(void){return v.in.c;}", "UnknownName 1:52"),
    ("siginfo_t i;int main(void){return i.si_value;}", "UnknownName 1:35"),
    ("struct sigaction a;int main(void){a.sa_restorer=0;}", "UnknownName 1:35"),
    ("struct s{int a;}v={1,.b=1};int main(void){}", "UnknownName 1:19"),
    ("int a[2]={.m=1};int main(void){}", "UnknownName 1:10"),
    ("int main(void){return localtime(0)->tm_sec;}", "fits"),
    ("void*p;int main(void){(*(struct t{int a;}*)p).a=sizeof(struct t);}", "fits"),
];

/// A tag that is an object's type is declared, by braces or alone; one that is mentioned declares nothing to that end.
#[rattlefmt::skip]
const TAGS: [(&str, &str); 8] = [
    ("struct s v;int main(void){}", "UnknownName 1:10"),
    ("struct s a[2];int main(void){}", "UnknownName 1:10"),
    ("enum e{A};enum e v;int main(void){return v;}", "fits"),
    ("int main(void){struct t v;}", "UnknownName 1:25"),
    ("int main(void){{struct t{int a;};}struct t v;}", "UnknownName 1:44"),
    ("struct s{int a,b;struct t*p,v;};int main(void){}", "UnknownName 1:29"),
    ("struct s{enum{A=3}k;};int a[A];int main(void){}", "fits"),
    ("void f(enum e v);int main(void){}", "UnknownName 1:8"),
];

/// A tag in the parameters of a function is one of their scope, which is that of the body where there is one.
#[rattlefmt::skip]
const PROTOTYPES: [(&str, &str); 4] = [
    ("int f(struct s{int a;}*p);int main(void){struct s v;}", "UnknownName 1:51"),
    ("int f(struct s*p,struct s*q){return p==q;}int main(void){}", "fits"),
    ("int f(enum{A}a);int main(void){return A;}", "UnknownName 1:39"),
    ("void f(struct t*p);struct t{int a;};struct s{int(*g)(struct u*q);};struct u v;int main(void){}", "UnknownName 1:77"),
];

/// A goto names a label of its function; labels are a name space of their own.
#[rattlefmt::skip]
const LABELS: [(&str, &str); 4] = [
    ("void f(void){l:;}int main(void){goto l;}", "UnknownName 1:33"),
    ("int main(void){int x;goto x;}", "UnknownName 1:22"),
    ("int main(void){switch(1){case 1:goto d;d:;default:;}}", "fits"),
    ("int main(void){for(;;){if(0)goto f;}e:;}", "UnknownName 1:29"),
];

#[test]
fn names_members_tags_and_labels(rt: HostRuntime) -> Result<(), AllocError> {
    let tables: [&[(&str, &str)]; 6] = [
        &UNDECLARED,
        &DEFINED,
        &MEMBERS,
        &TAGS,
        &PROTOTYPES,
        &LABELS,
    ];
    assert_eq!(rt; wrong_in(rt.alloc(), &tables)?, None);
    Ok(())
}

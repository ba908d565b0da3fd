//! The operands of operators, and what statements ask of their expressions (C11 6.5, 6.8).

use crate::told::wrong_in;
use std::alloc::AllocError;

/// Unary and binary operators on numbers, and on pointers where they may be.
#[rattlefmt::skip]
const ARITHMETIC: [(&str, &str); 7] = [
    ("int main(void){int x=7;return x*2+x/3%4-(x&1|x^6)+(x<<1>>2)+~x+-x+ +x+!x;}", "fits"),
    ("int a[2];int main(void){int*p=a+1;return p-a+(*a+*(1+a));}", "fits"),
    ("int*p;int main(void){~p;}", "KindMismatch 1:22"),
    ("void(*h)(int);int main(void){h+1;}", "KindMismatch 1:30"),
    ("struct s{int a;}v;int main(void){!v;}", "KindMismatch 1:34"),
    ("sigset_t g;int main(void){g|g;}", "KindMismatch 1:27"),
    ("int main(void){\"a\"*1;}", "KindMismatch 1:16"),
];

/// Of numbers, and of pointers that match; what is compared with 0 is a number or a pointer.
#[rattlefmt::skip]
const COMPARISONS: [(&str, &str); 5] = [
    ("int*p,*q;char*c;int main(void){return(p<q)+(p>c)+(p<=q)+(p>=q)+(p==0)+(NULL!=p)+(p==(void*)0);}", "fits"),
    ("int*p;int main(void){return p==(0);}", "KindMismatch 1:29"),
    ("void(*h)(int);void(*k)(void);int main(void){return h!=k;}", "KindMismatch 1:52"),
    ("int*p;void(*h)(int);int a[2];int main(void){return(p&&h)+(a||1)+!h+!a+(1&&\"s\");}", "fits"),
    ("int main(void){int a[2];a==1;}", "KindMismatch 1:25"),
];

/// The branches match, and the condition is a number or a pointer.
#[rattlefmt::skip]
const CHOICES: [(&str, &str); 4] = [
    ("int a[2],b[3];int main(void){return*(1?a:b)+(1?a:b)[0];}", "fits"),
    ("int x,*p;int main(void){x?p:1;}", "KindMismatch 1:25"),
    ("void f(void){}int main(void){f()?1:2;}", "KindMismatch 1:30"),
    ("struct s{int a;}v;struct t{int a;}w;int main(void){1?v:w;}", "KindMismatch 1:52"),
];

/// What is followed, indexed and a member is taken of.
#[rattlefmt::skip]
const ACCESS: [(&str, &str); 7] = [
    ("int x,*p,a[2][2];void f(void){}int main(void){(**f)();return*p+*a[1]+**a+*&x+*\"s\";}", "fits"),
    ("void*w;int main(void){*w;}", "KindMismatch 1:23"),
    ("int a[2];int main(void){return 1[a];}", "KindMismatch 1:32"),
    ("int x;int main(void){return x.m;}", "KindMismatch 1:29"),
    ("int*p;int main(void){return p->a;}", "KindMismatch 1:29"),
    ("struct s{int a;}v;int main(void){return (1?v:v).a;}", "KindMismatch 1:41"),
    ("int x;int main(void){int*p=&x,**q=&p;**q=*&**q;*q=&*p;return p==*q;}", "fits"),
];

/// Assignment, compound assignment, and steps, by the types of both sides.
#[rattlefmt::skip]
const STORES: [(&str, &str); 10] = [
    (
        "\
int x,*p,a[2];char*c;void f(int s){}void(*h)(int);int main(void){p=&x;p=0;p=NULL;p=a;c=\"s\";p=c;h=f;h=&f;h=0;h=SIG_IGN;\
x='c';x=1ul;x=p-p;}",
        "fits",
    ),
    ("struct s{int a;}v,w;sigset_t g,k;int main(void){v=w;g=k;}", "fits"),
    ("int*p;int main(void){p=1;}", "KindMismatch 1:22"),
    ("int x;int main(void){x=\"s\";}", "KindMismatch 1:22"),
    ("int x;void f(void){}int main(void){x=f();}", "KindMismatch 1:36"),
    ("void(*h)(int);int main(void){h++;}", "KindMismatch 1:30"),
    ("sigset_t g;int main(void){++g;}", "KindMismatch 1:27"),
    ("pthread_mutex_t m;int main(void){m--;}", "KindMismatch 1:34"),
    ("int main(void){sigset_t s[2];s[0]=0;}", "KindMismatch 1:30"),
    ("int main(void){sigset_t s[2],t;s[0]=t;t=*s;sigemptyset(&s[1]);sigemptyset(s+1);}", "fits"),
];

/// What is asked in if, while, do, for and switch.
#[rattlefmt::skip]
const CONDITIONS: [(&str, &str); 4] = [
    (
        "\
int x,*p,a[2];void(*h)(int);int main(void){if(x);if(p);if(h);if(a);while(p)break;do;while(!h);for(;a;)break;for(;;\
)break;if(\"s\");if(stdin);}",
        "fits",
    ),
    ("struct s{int a;}v;int main(void){if(v);}", "KindMismatch 1:34"),
    ("void f(void){}int main(void){switch(f){}}", "KindMismatch 1:30"),
    ("int*p;int main(void){switch(p){case 1:;case 1:;}}", "KindMismatch 1:22"),
];

/// With a value of the result's type, and without one of void.
#[rattlefmt::skip]
const RETURNS: [(&str, &str); 4] = [
    ("void f(void){return 1;}int main(void){}", "KindMismatch 1:14"),
    ("char*f(void){return\"s\";}long g(void){return'c';}struct s{int a;}v;struct s*h(void){return&v;}int main(void){}", "fits"),
    ("struct s{int a;}v;int f(void){return v;}int main(void){}", "KindMismatch 1:31"),
    ("void f(void){if(1){while(1)return 0;}}int main(void){}", "KindMismatch 1:28"),
];

#[test]
fn operators_and_statements(rt: HostRuntime) -> Result<(), AllocError> {
    let tables: [&[(&str, &str)]; 7] = [
        &ARITHMETIC,
        &COMPARISONS,
        &CHOICES,
        &ACCESS,
        &STORES,
        &CONDITIONS,
        &RETURNS,
    ];
    assert_eq!(rt; wrong_in(rt.alloc(), &tables)?, None);
    Ok(())
}

//! What is stored into, and whose address is taken, is a place (C11 6.3.2.1p1, 6.5.2.4p1, 6.5.3.2p1, 6.5.16p2).

use crate::told::wrong_in;
use std::alloc::AllocError;

/// Objects, what pointers point to, elements and members may be stored into.
#[rattlefmt::skip]
const STORED: [(&str, &str); 12] = [
    (
        "\
int x,*p=&x,a[2],b[2][2];struct s{int m,k[2];struct s*n;}v,*q=&v;int main(void){x=1;(x)=2;((x))++;*p=3;*p++=4;++*p;\
a[0]=5;b[1][0]++;*a=6;v.m=7;q->m=8;(*q).k[1]=9;v.n->m--;p[1]=1;*&x=2;}",
        "fits",
    ),
    ("int main(void){errno=1;(errno)=2;errno++;\"abc\"[0]='x';*\"abc\"='y';}", "fits"),
    ("int*f(void){return 0;}int**g(void){return 0;}struct s{int m;}*h;int main(void){*f()=1;f()[1]=2;++*f();*g()=0;(1?h:h)->m=1;}", "fits"),
    ("int main(void){'c'=2;}", "NotAssignable 1:16"),
    ("int main(void){\"abc\"=0;}", "NotAssignable 1:16"),
    ("int x;int main(void){++x++;}", "NotAssignable 1:22"),
    ("int x,y;int main(void){(1?x:y)=1;}", "NotAssignable 1:24"),
    ("int f(void){return 0;}int main(void){f=0;}", "NotAssignable 1:38"),
    ("int a[2];int main(void){a=0;}", "NotAssignable 1:25"),
    ("struct s{int m[2];}*p;int main(void){p->m++;}", "NotAssignable 1:38"),
    ("int main(void){SIGINT=1;}", "NotAssignable 1:16"),
    ("int x;int main(void){x=1+((x+1)=2);}", "NotAssignable 1:27"),
];

/// Nothing of an object that is declared const is stored into.
#[rattlefmt::skip]
const CONSTANT: [(&str, &str); 14] = [
    ("void f(const int a){a=1;}int main(void){}", "NotAssignable 1:21"),
    ("void f(const int*a,const int b[2]){a=b;b=0;*a=1;b[1]=2;}int main(void){}", "fits"),
    ("const int a[2][2]={{1,2}};int main(void){a[1][0]++;}", "NotAssignable 1:42"),
    ("void(*const h)(int)=0;int main(void){h=0;}", "NotAssignable 1:38"),
    ("void(*const t[2])(int)={0};int main(void){t[1]=0;}", "NotAssignable 1:43"),
    ("struct s{int m,k[2],*p;};const struct s v={1};int main(void){*v.k=2;}", "NotAssignable 1:62"),
    ("struct s{const int m;}v;int main(void){v.m=1;}", "fits"),
    ("volatile sig_atomic_t x;int main(void){x=1;x++;}", "fits"),
    ("const int a[2]={1};int main(void){(*(a))=1;}", "NotAssignable 1:35"),
    ("struct s{int m;};const struct s t[2]={{1}};int main(void){t[1].m=1;}", "NotAssignable 1:59"),
    ("typedef int A[2];typedef const A B;B b={1};int main(void){b[0]=1;}", "NotAssignable 1:59"),
    ("struct s{int m;};const struct s t[2]={{1}};int main(void){t->m=1;}", "NotAssignable 1:59"),
    ("struct s{int m;};const struct s t[2]={{1}},*p=t;int main(void){p->m=1;}", "fits"),
    ("typedef int*P;const P p=0;int main(void){*p=1;}", "fits"),
];

/// Of objects, elements, members, strings, and functions by their plain names.
#[rattlefmt::skip]
const ADDRESSES: [(&str, &str); 6] = [
    (
        "\
int x,*p,a[2];struct s{int m,k[2];}v,*q;const int c=1;int f(void){return 0;}int main(void){&x;&(x);&a;&a[1];&*p;&p[1];\
&v;&v.m;&v.k[1];&q->m;&c;&f;&\"abc\";&\"abc\"[1];&*a;*&f;&((v)).k;}",
        "fits",
    ),
    ("int main(void){&'c';}", "NotAssignable 1:16"),
    ("int x;int main(void){&x++;}", "NotAssignable 1:22"),
    ("int f(void){return 0;}int main(void){&(f);}", "NotAssignable 1:38"),
    ("int(*p)(void);int main(void){&*p;}", "NotAssignable 1:30"),
    ("int*p;int main(void){p=&p[1]++;}", "NotAssignable 1:24"),
];

#[test]
fn what_is_stored_into(rt: HostRuntime) -> Result<(), AllocError> {
    let tables: [&[(&str, &str)]; 3] = [&STORED, &CONSTANT, &ADDRESSES];
    assert_eq!(rt; wrong_in(rt.alloc(), &tables)?, None);
    Ok(())
}

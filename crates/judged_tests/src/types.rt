//! Objects, members and parameters have a complete type that is neither void nor a function's (C11 6.2.5, 6.7p7, 6.7.2.1p3, 6.7.6.2p1, 6.7.6.3p4).

use crate::told::wrong_in;
use std::alloc::AllocError;

#[rattlefmt::skip]
const VOID: [(&str, &str); 4] = [
    ("void x;int main(void){}", "KindMismatch 1:6"),
    ("void*p,**q,*a[2];void f(void);int main(void){}", "fits"),
    ("int main(void){return sizeof(int(*)(void,int));}", "KindMismatch 1:23"),
    ("int main(void){(int(*)(const void))0;}", "KindMismatch 1:16"),
];

/// An array has a size, unless it is initialised or declared with extern; only the first may be left open, and an element's never.
#[rattlefmt::skip]
const ARRAYS: [(&str, &str); 8] = [
    ("int main(void){static int a[];}", "KindMismatch 1:27"),
    ("int a[2][]={{1},{2}};int main(void){}", "KindMismatch 1:5"),
    ("struct s{int a[][2];};int main(void){}", "KindMismatch 1:14"),
    ("typedef int A[2][];int main(void){}", "KindMismatch 1:13"),
    ("typedef int A[2];void f(A a){a=0;a++;}int main(void){A a;f(a);}", "fits"),
    ("int(*a[2])(int),(*b[])(int)={0};extern int(*c[])(int);int main(void){}", "fits"),
    ("int main(void){return sizeof(struct{int a[];});}", "KindMismatch 1:41"),
    ("typedef int A[];A a,b={1};int main(void){}", "KindMismatch 1:19"),
];

/// A structure is complete behind its members.
#[rattlefmt::skip]
const STRUCTURES: [(&str, &str); 5] = [
    ("struct s{struct s a[2];};int main(void){}", "KindMismatch 1:19"),
    ("typedef struct s T;T v;int main(void){}", "KindMismatch 1:22"),
    ("struct{int a;}v,*p=&v;int main(void){return p->a;}", "fits"),
    (
        "\
struct s{int a,*b,c[2];struct t{char d;}e,*f;enum{K}g;int(*h)(int);FILE*i;sigset_t j;siginfo_t k;};struct s v;\
int main(void){return v.e.d+v.k.si_code;}",
        "fits",
    ),
    ("int main(void){struct s{struct s v;}w;}", "KindMismatch 1:34"),
];

/// A type's name may stand for a function, which no object is.
#[rattlefmt::skip]
const FUNCTIONS: [(&str, &str); 4] = [
    ("typedef int F(int);F*p,**q;int g(F*h){return h(1);}int main(void){return p(1)+(*q)(2)+(*p)(3);}", "fits"),
    ("typedef int F(int);F a[2];int main(void){}", "KindMismatch 1:22"),
    ("typedef int F(int);struct s{F m;};int main(void){}", "KindMismatch 1:31"),
    ("typedef int F(int);void f(F g){}int main(void){}", "KindMismatch 1:27"),
];

#[test]
fn objects_have_complete_types(rt: HostRuntime) -> Result<(), AllocError> {
    let tables: [&[(&str, &str)]; 4] = [&VOID, &ARRAYS, &STRUCTURES, &FUNCTIONS];
    assert_eq!(rt; wrong_in(rt.alloc(), &tables)?, None);
    Ok(())
}

//! What the subset leaves out: names, main in an expression, the address of errno, structures by value, lists by place, casts.

use crate::told::wrong_in;
use std::alloc::AllocError;

/// The names that are left out, where they aren't hidden.
#[rattlefmt::skip]
const NAMES: [(&str, &str); 4] = [
    ("int main(void){setjmp(0);}", "LeftOut 1:16"),
    ("int main(void){int x=qsort;}", "LeftOut 1:22"),
    ("int main(void){&timer_create;}", "LeftOut 1:17"),
    ("struct s{int qsort;}v;int main(void){return v.qsort;}", "fits"),
];

/// The function main in an expression.
#[rattlefmt::skip]
const MAIN: [(&str, &str); 4] = [
    ("int main(void){return main();}", "LeftOut 1:23"),
    ("int main(void);int(*p)(void)=main;int main(void){}", "LeftOut 1:30"),
    ("struct main{int main;};int main(void){goto main;main:;}", "fits"),
    ("int main(void){if(0)(main)();}", "LeftOut 1:22"),
];

/// Its address.
#[rattlefmt::skip]
const ERRNO: [(&str, &str); 4] = [
    ("int main(void){&(errno);}", "LeftOut 1:16"),
    ("int main(void){read(0,&errno,4);}", "LeftOut 1:23"),
    ("int main(void){return sizeof &((errno));}", "LeftOut 1:30"),
    ("int main(void){int errno=1;int*p=&errno;return*p;}", "fits"),
];

/// A structure or a signal set as parameter or result.
#[rattlefmt::skip]
const BY_VALUE: [(&str, &str); 6] = [
    ("struct s{int a;};void f(struct s v){}int main(void){}", "LeftOut 1:25"),
    ("struct s{int a;};struct s f(void);int main(void){}", "LeftOut 1:27"),
    ("sigset_t f(void){for(;;);}int main(void){}", "LeftOut 1:1"),
    (
        "\
struct s{int a;};void f(sigset_t*s,struct s*p,struct stat a[2]){}struct s*g(void){return 0;}sigset_t*h(void){return 0;}\
int main(void){}",
        "fits",
    ),
    ("int main(void){(struct stat(*)(void))0;}", "LeftOut 1:16"),
    ("void f(pthread_mutex_t*m);FILE*g(void);int main(void){}", "fits"),
];

/// A part of a list for a struct sigaction without a member's name, but for a sole 0.
#[rattlefmt::skip]
const POSITIONS: [(&str, &str); 4] = [
    ("void h(int s){}struct sigaction a={h};int main(void){}", "LeftOut 1:35"),
    ("struct sigaction a={NULL};int main(void){}", "LeftOut 1:20"),
    ("int main(void){struct sigaction a={0,.sa_flags=1};}", "LeftOut 1:35"),
    ("struct sigaction a[2]={{0},{.sa_flags=1}};struct t{struct sigaction a;}v={{0}};int main(void){}", "fits"),
];

/// Only to void, between numbers and pointers to objects, between pointers to functions, and of 0 to one.
#[rattlefmt::skip]
const CASTS: [(&str, &str); 6] = [
    (
        "\
int x,*p,a[2];int main(void){(void)1;(int)'c';(char)1;(unsigned)x;(int*)1;(long)p;(void*)p;(char*)a;(long)a;(void*)\"s\";\
(void)p;(void)a;}",
        "fits",
    ),
    (
        "\
typedef void(*H)(int);void f(int s){}H h;int main(void){(H)0;(H)0x0;(H)h;(H)f;(H)&f;(int(*)(void))h;\
(void(*)(int))SIG_IGN;(void)h;(void)f;}",
        "fits",
    ),
    ("void(*h)(int);int main(void){(void*)h;}", "LeftOut 1:30"),
    ("typedef void(*H)(int);int main(void){(H)NULL;}", "LeftOut 1:38"),
    ("struct s{int a;}v;int main(void){(struct s)v;}", "LeftOut 1:34"),
    ("void f(void){}int main(void){(int)f();}", "LeftOut 1:30"),
];

#[test]
fn what_is_left_out(rt: HostRuntime) -> Result<(), AllocError> {
    let tables: [&[(&str, &str)]; 6] = [&NAMES, &MAIN, &ERRNO, &BY_VALUE, &POSITIONS, &CASTS];
    assert_eq!(rt; wrong_in(rt.alloc(), &tables)?, None);
    Ok(())
}

//! Which nodes are read: objects that do not stand as places, and that are no arrays (C11 6.3.2.1).

use crate::shown::{View, first_wrong};
use posix_table::profile;
use std::alloc::AllocError;

const READS: [(&str, &str); 15] = [
    // x; x = x; x += 1;
    ("int main(void){int x;x;x=x;x+=1;}", "6 10 "),
    // x++; --x; &x; -x;
    ("int main(void){int x;x++;--x;&x;-x;}", "16 "),
    // *q; *q = 1;
    ("int main(void){int*q;*q;*q=1;}", "6 7 11 "),
    // a; a[1]; *a; a[1] = 2;
    ("int main(void){int a[3];a;a[1];*a;a[1]=2;}", "9 13 "),
    // v.m; v.m = 1; p->m; p->m = 1;
    (
        "struct s{int m;}v,*p;int main(void){v.m;v.m=1;p->m;p->m=1;}",
        "8 16 17 21 ",
    ),
    // v.l[0]; p->l[0]; &v.l[0];
    (
        "struct s{int l[2];}v,*p;int main(void){v.l[0];p->l[0];&v.l[0];}",
        "9 14 16 ",
    ),
    // (x); (x) = 1; &(x); -(x);
    ("int main(void){int x;(x);(x)=1;&(x);-(x);}", "7 20 "),
    // "s"; *"s"; 'c'; 1;
    ("int main(void){\"s\";*\"s\";'c';1;}", "6 "),
    // sizeof x; sizeof(x); x;
    ("int main(void){int x;sizeof x;sizeof(x);x;}", "13 "),
    // errno; errno = 1; EOF;
    ("int main(void){errno;errno=1;EOF;}", "4 "),
    // g; &g; *g; (*g)(); g();
    ("void g(void){}int main(void){g;&g;*g;(*g)();g();}", ""),
    // f; *f; (*f)(); f();
    (
        "int(*f)(void);int main(void){f;*f;(*f)();f();}",
        "6 9 14 17 ",
    ),
    // v;
    ("struct s{int m;}v;int main(void){v;}", "7 "),
    // static int t = x; int y = x; if (x) return x;
    (
        "int x;int main(void){static int t=x;int y=x;if(x)return x;}",
        "10 12 14 ",
    ),
    // x, y; x ? x : y; x && y; (void) x;
    (
        "int main(void){int x,y;x,y;x?x:y;x&&y;(void)x;}",
        "8 9 12 13 14 17 18 21 ",
    ),
];

#[test]
fn objects_are_read(rt: HostRuntime) -> Result<(), AllocError> {
    let Ok(table) = profile(rt.alloc()) else {
        return Err(AllocError);
    };
    assert_eq!(rt; first_wrong(rt.alloc(), &table, &READS, View::Reads)?, None);
    Ok(())
}

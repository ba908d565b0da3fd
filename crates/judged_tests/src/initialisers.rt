//! What initialises objects (C11 6.7.9).

use crate::told::wrong_in;
use std::alloc::AllocError;

/// An expression.
#[rattlefmt::skip]
const SINGLE: [(&str, &str); 7] = [
    (
        "\
int x=1;char c='c';long l=1;int*p=0,*q=NULL;char*s=\"s\",t[]=\"t\";unsigned char u[4]=\"u\";signed char v[]=\"v\";\
void(*h)(int)=0;int main(void){}",
        "fits",
    ),
    ("int x=\"s\";int main(void){}", "KindMismatch 1:5"),
    ("int *p=(0);int main(void){}", "KindMismatch 1:5"),
    ("int main(void){char*p=0;char b[2]=p;}", "KindMismatch 1:30"),
    ("int f(int a){return a;}void (*h)(int)=f;int main(void){}", "KindMismatch 1:29"),
    ("int main(void){PTHREAD_MUTEX_INITIALIZER;sigset_t s;struct sigaction a={.sa_mask=s};}", "fits"),
    ("int main(void){!PTHREAD_MUTEX_INITIALIZER;}", "KindMismatch 1:16"),
];

/// A list fills an array or a structure, in order or by members' names.
#[rattlefmt::skip]
const LISTS: [(&str, &str); 10] = [
    ("int a[2]={1,2},b[]={1,},c[2][2]={{1,2},{3}},d[3]={1};char*e[]={\"a\",0,\"b\"},f[2][3]={\"ab\",\"c\"};int main(void){}", "fits"),
    (
        "\
struct s{int a;char*b;int c[2];}v={1,\"s\",{2,3}},w={.b=\"s\",.a=1},x={.c={1}},y={1,.c={2,3},},z={.a=1,0,{2}};\
int main(void){}",
        "fits",
    ),
    ("int main(void){int x=1,a[2]={x,x+1};struct timespec t={0,1};struct timespec u={.tv_nsec=1};}", "fits"),
    ("int*p={0};int main(void){}", "KindMismatch 1:7"),
    ("void(*h)(int)={0};int main(void){}", "KindMismatch 1:15"),
    ("int main(void){int x={1};}", "KindMismatch 1:22"),
    ("char a[]={\"abc\"};int main(void){}", "KindMismatch 1:10"),
    ("int a[2][2]={{1},{\"s\"}};int main(void){}", "KindMismatch 1:18"),
    ("struct s{int a;}v={1,2};int main(void){}", "KindMismatch 1:19"),
    ("struct s{int a;}v={.a=1,.c=2};int main(void){}", "UnknownName 1:19"),
];

#[test]
fn initial_values(rt: HostRuntime) -> Result<(), AllocError> {
    let tables: [&[(&str, &str)]; 2] = [&SINGLE, &LISTS];
    assert_eq!(rt; wrong_in(rt.alloc(), &tables)?, None);
    Ok(())
}

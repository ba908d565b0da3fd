//! The name of a library function stands only before the arguments of a call.

use crate::told::wrong_in;
use std::alloc::AllocError;

/// It is told where it stands otherwise.
#[rattlefmt::skip]
const VALUES: [(&str, &str); 14] = [
    ("int main(void){return getpid;}", "LibraryAsValue 1:23"),
    ("int main(void){(*getpid)();}", "LibraryAsValue 1:18"),
    ("int main(void){(void)getpid;}", "LibraryAsValue 1:22"),
    ("int a[2];int main(void){a[getpid];}", "LibraryAsValue 1:27"),
    ("void(*h)(int);int main(void){h=exit;}", "LibraryAsValue 1:32"),
    ("int main(void){struct sigaction a={.sa_handler=_exit};}", "LibraryAsValue 1:48"),
    ("int main(void){int x[2]={1,getpid};}", "LibraryAsValue 1:28"),
    ("int main(void){signal(SIGINT,exit);}", "LibraryAsValue 1:30"),
    ("void f(void(*g)(int)){}int main(void){f(exit);}", "LibraryAsValue 1:41"),
    ("int x=sizeof getpid;int main(void){}", "LibraryAsValue 1:14"),
    ("void(*h)(int)=exit;int main(void){}", "LibraryAsValue 1:15"),
    ("struct sigaction a={.sa_handler=_exit};int main(void){}", "LibraryAsValue 1:33"),
    ("int main(void){static void(*h)(int)=exit;}", "LibraryAsValue 1:37"),
    ("int main(void){static void(*h[2])(int)={SIG_DFL,exit};}", "LibraryAsValue 1:49"),
];

/// Before the arguments of a call it stands for a function, and where a local name hides it, it doesn't.
#[rattlefmt::skip]
const CALLED: [(&str, &str); 4] = [
    ("int main(void){kill(getpid(),SIGINT);}", "fits"),
    ("int f(int(*getpid)(void)){return getpid()+(getpid)();}int main(void){}", "fits"),
    ("int main(void){{int getpid=1;getpid=2;}return getpid();}", "fits"),
    ("int main(void){int pid=getpid;}", "LibraryAsValue 1:24"),
];

/// A rule above that asks nothing of its kind is told before the name.
#[rattlefmt::skip]
const TOLD_BEFORE: [(&str, &str); 4] = [
    ("int main(void){getpid=1;}", "NotAssignable 1:16"),
    ("int f(int a){return a;}int main(void){f(getpid,1);}", "WrongCount 1:39"),
    ("int a[getpid];int main(void){}", "NotConstant 1:5"),
    ("int main(void){struct sigaction a={exit};}", "LeftOut 1:35"),
];

#[test]
fn names_of_library_functions(rt: HostRuntime) -> Result<(), AllocError> {
    let tables: [&[(&str, &str)]; 3] = [&VALUES, &CALLED, &TOLD_BEFORE];
    assert_eq!(rt; wrong_in(rt.alloc(), &tables)?, None);
    Ok(())
}

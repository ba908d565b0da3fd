//! There is a function main of a type that it may have (C11 5.1.2.2.1); where no other rule is broken, that is told at the end of the text.

use crate::told::wrong_in;
use std::alloc::AllocError;

/// Its forms.
#[rattlefmt::skip]
const GOOD: [(&str, &str); 4] = [
    ("int main(){}", "fits"),
    ("int main(int c,char*v[]){return c;}", "fits"),
    ("int main(int n,void*a,const char*const*b){return n;}", "fits"),
    ("static int main(void){return 0;}", "fits"),
];

/// None, or one of another type.
#[rattlefmt::skip]
const BAD: [(&str, &str); 8] = [
    ("", "NoMain 1:1"),
    ("\n\n", "NoMain 3:1"),
    ("int x;\n\n  int y;", "NoMain 3:9"),
    ("int x; /* no main */ ", "NoMain 1:22"),
    ("int main(void);", "NoMain 1:16"),
    ("int main;", "NoMain 1:10"),
    ("struct main{int main;}v;", "NoMain 1:25"),
    ("int main(int c){return 0;}", "NoMain 1:27"),
];

/// Where another rule is broken, that is told.
#[rattlefmt::skip]
const OTHERS: [(&str, &str); 4] = [
    ("void f(void){x;}", "UnknownName 1:14"),
    ("int main(int c){return;}", "KindMismatch 1:17"),
    ("int x=1;int x=2;", "DeclaredTwice 1:13"),
    ("struct stat main(void){for(;;);}", "LeftOut 1:1"),
];

#[test]
fn main_has_its_type(rt: HostRuntime) -> Result<(), AllocError> {
    let tables: [&[(&str, &str)]; 3] = [&GOOD, &BAD, &OTHERS];
    assert_eq!(rt; wrong_in(rt.alloc(), &tables)?, None);
    Ok(())
}

//! Calls: of functions of the program, by pointers, of library functions, and of those that copy the process or never return.

use crate::shown::{View, first_wrong};
use posix_table::{profile, profile_later};
use std::alloc::AllocError;

const CALLS: [(&str, &str); 3] = [
    (
        "int f(int x){return x;}int main(void){f(f(1));(f)(2);}",
        "\
1 Enter -> 3 Enter
1 Leave -> none
3 Enter -> 4 Enter
3 Leave -> 1 Leave
4 Enter -> 5 Enter
4 Leave -> 1 Leave
5 Enter -> 5 Leave
5 Leave -> 4 Leave
6 Enter -> 7 Enter
6 Leave -> 6 Finish
6 Finish -> none
7 Enter -> 8 Enter
7 Leave -> 6 Leave
8 Enter -> 9 Enter
8 Leave -> 14 Enter
9 Enter -> 11 Enter
9 In0 -> 9 Leave
9 Leave -> 8 Leave
11 Enter -> 13 Enter
11 In0 -> 11 Leave
11 Leave -> 9 In0
13 Enter -> 13 Leave
13 Leave -> 11 In0
14 Enter -> 15 Enter
14 Leave -> 7 Leave
15 Enter -> 16 Enter
15 In0 -> 15 Leave
15 Leave -> 14 Leave
16 Enter -> 17 Enter
16 Leave -> 18 Enter
17 Enter -> 17 Leave
17 Leave -> 16 Leave
18 Enter -> 18 Leave
18 Leave -> 15 In0
",
    ),
    (
        "int(*p)(int,int);int main(void){return p(1,2);}",
        "\
3 Enter -> 4 Enter
3 Leave -> 3 Finish
3 Finish -> none
4 Enter -> 5 Enter
4 Leave -> 3 Leave
5 Enter -> 6 Enter
5 Leave -> 3 Leave
6 Enter -> 7 Enter
6 In0 -> 6 Leave
6 Leave -> 5 Leave
7 Enter -> 7 Leave
7 Leave -> 8 Enter
8 Enter -> 8 Leave
8 Leave -> 9 Enter
9 Enter -> 9 Leave
9 Leave -> 6 In0
",
    ),
    (
        "int main(void){if(fork()==0)_exit(1);return getpid();}",
        "\
1 Enter -> 2 Enter
1 Leave -> 1 Finish
1 Finish -> none
2 Enter -> 3 Enter
2 Leave -> 1 Leave
3 Enter -> 4 Enter
3 Leave -> 12 Enter
4 Enter -> 5 Enter
4 Leave -> 3 Leave (zero 4), 8 Enter (nonzero 4)
5 Enter -> 5 In0
5 In0 -> 5 In1
5 In1 -> 5 Leave
5 Leave -> 7 Enter
7 Enter -> 7 Leave
7 Leave -> 4 Leave
8 Enter -> 9 Enter
8 Leave -> 3 Leave
9 Enter -> 11 Enter
9 In0 -> none
9 Leave -> 8 Leave
11 Enter -> 11 Leave
11 Leave -> 9 In0
12 Enter -> 13 Enter
12 Leave -> 1 Leave
13 Enter -> 13 In0
13 In0 -> 13 Leave
13 Leave -> 12 Leave
",
    ),
];

const LATER_CALLS: [(&str, &str); 1] = [(
    "int main(void){return _Fork();}",
    "\
1 Enter -> 2 Enter
1 Leave -> 1 Finish
1 Finish -> none
2 Enter -> 3 Enter
2 Leave -> 1 Leave
3 Enter -> 4 Enter
3 Leave -> 1 Leave
4 Enter -> 4 In0
4 In0 -> 4 In1
4 In1 -> 4 Leave
4 Leave -> 3 Leave
",
)];

const NAMES: [(&str, &str); 2] = [
    (
        "int f(int x){return x;}int main(void){f(fork());}",
        "\
11 Enter fork
11 In0 fork
11 In1 fork
11 Leave fork
",
    ),
    (
        "int(*p)(void);int main(void){write(1,\"x\",(getpid)());p();_exit(1);}",
        "\
6 Enter write
6 In0 write
6 Leave write
17 Enter _exit
17 In0 _exit
17 Leave _exit
",
    ),
];

#[test]
fn calls_have_their_phases(rt: HostRuntime) -> Result<(), AllocError> {
    let Ok(table) = profile(rt.alloc()) else {
        return Err(AllocError);
    };
    assert_eq!(rt; first_wrong(rt.alloc(), &table, &CALLS, View::Graph)?, None);
    assert_eq!(rt;
        first_wrong(rt.alloc(), &table, &NAMES, View::Called)?,
        None
    );
    Ok(())
}

#[test]
fn a_later_fork_copies_too(rt: HostRuntime) -> Result<(), AllocError> {
    let Ok(table) = profile_later(rt.alloc()) else {
        return Err(AllocError);
    };
    assert_eq!(rt;
        first_wrong(rt.alloc(), &table, &LATER_CALLS, View::Graph)?,
        None
    );
    Ok(())
}

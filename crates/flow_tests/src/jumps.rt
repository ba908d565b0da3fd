//! Jumps by name and out of functions (C11 6.8.1, 6.8.6), and the end of main (5.1.2.2.3).

use crate::shown::{View, first_wrong};
use posix_table::profile;
use std::alloc::AllocError;

const JUMPS: [(&str, &str); 3] = [
    (
        "int main(void){1;a:;if(2)goto a;goto b;{goto a;}b:;}",
        "\
1 Enter -> 2 Enter
1 Leave -> 1 Finish
1 Finish -> none
2 Enter -> 3 Enter
2 Leave -> 1 Leave
3 Enter -> 4 Enter
3 Leave -> 5 Enter
4 Enter -> 4 Leave
4 Leave -> 3 Leave
5 Enter -> 5 Leave
5 Leave -> 6 Enter
6 Enter -> 6 Leave
6 Leave -> 7 Enter
7 Enter -> 8 Enter
7 Leave -> 10 Enter
8 Enter -> 8 Leave
8 Leave -> 7 Leave (zero 8), 9 Enter (nonzero 8)
9 Enter -> 9 Leave
9 Leave -> 5 Enter
10 Enter -> 10 Leave
10 Leave -> 13 Enter
11 Enter -> 12 Enter
11 Leave -> 13 Enter
12 Enter -> 12 Leave
12 Leave -> 5 Enter
13 Enter -> 13 Leave
13 Leave -> 14 Enter
14 Enter -> 14 Leave
14 Leave -> 2 Leave
",
    ),
    (
        "void g(void){while(1){return;}}int main(void){return (int)sizeof(1+2);}",
        "\
1 Enter -> 2 Enter
1 Leave -> none
2 Enter -> 3 Enter
2 Leave -> 1 Leave
3 Enter -> 4 Enter
3 Leave -> 2 Leave
4 Enter -> 4 Leave
4 Leave -> 3 Leave (zero 4), 5 Enter (nonzero 4)
5 Enter -> 6 Enter
5 Leave -> 4 Enter
6 Enter -> 6 Leave
6 Leave -> 1 Leave
7 Enter -> 8 Enter
7 Leave -> 7 Finish
7 Finish -> none
8 Enter -> 9 Enter
8 Leave -> 7 Leave
9 Enter -> 10 Enter
9 Leave -> 7 Leave
10 Enter -> 11 Enter
10 Leave -> 9 Leave
11 Enter -> 11 Leave
11 Leave -> 10 Leave
",
    ),
    (
        "void f(void){goto a;{a:;}}void g(void){a:goto a;}int main(void){}",
        "\
1 Enter -> 2 Enter
1 Leave -> none
2 Enter -> 3 Enter
2 Leave -> 1 Leave
3 Enter -> 3 Leave
3 Leave -> 5 Enter
4 Enter -> 5 Enter
4 Leave -> 2 Leave
5 Enter -> 5 Leave
5 Leave -> 6 Enter
6 Enter -> 6 Leave
6 Leave -> 4 Leave
7 Enter -> 8 Enter
7 Leave -> none
8 Enter -> 9 Enter
8 Leave -> 7 Leave
9 Enter -> 9 Leave
9 Leave -> 10 Enter
10 Enter -> 10 Leave
10 Leave -> 9 Enter
11 Enter -> 12 Enter
11 Leave -> 11 Finish
11 Finish -> none
12 Enter -> 12 Leave
12 Leave -> 11 Leave
",
    ),
];

#[test]
fn jumps_go_to_their_targets(rt: HostRuntime) -> Result<(), AllocError> {
    let Ok(table) = profile(rt.alloc()) else {
        return Err(AllocError);
    };
    assert_eq!(rt; first_wrong(rt.alloc(), &table, &JUMPS, View::Graph)?, None);
    Ok(())
}

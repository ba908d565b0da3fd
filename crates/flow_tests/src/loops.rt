//! Loops, with break and continue in each (C11 6.8.5, 6.8.6).

use crate::shown::{View, first_wrong};
use posix_table::profile;
use std::alloc::AllocError;

const LOOPS: [(&str, &str); 3] = [
    (
        "int main(void){while(1){if(2)break;continue;3;}}",
        "\
1 Enter -> 2 Enter
1 Leave -> 1 Finish
1 Finish -> none
2 Enter -> 3 Enter
2 Leave -> 1 Leave
3 Enter -> 4 Enter
3 Leave -> 2 Leave
4 Enter -> 4 Leave
4 Leave -> 3 Leave (zero 4), 5 Enter (nonzero 4)
5 Enter -> 6 Enter
5 Leave -> 4 Enter
6 Enter -> 7 Enter
6 Leave -> 9 Enter
7 Enter -> 7 Leave
7 Leave -> 6 Leave (zero 7), 8 Enter (nonzero 7)
8 Enter -> 8 Leave
8 Leave -> 3 Leave
9 Enter -> 9 Leave
9 Leave -> 4 Enter
10 Enter -> 11 Enter
10 Leave -> 5 Leave
11 Enter -> 11 Leave
11 Leave -> 10 Leave
",
    ),
    (
        "int main(void){do{if(1)continue;break;}while(2);}",
        "\
1 Enter -> 2 Enter
1 Leave -> 1 Finish
1 Finish -> none
2 Enter -> 3 Enter
2 Leave -> 1 Leave
3 Enter -> 4 Enter
3 Leave -> 2 Leave
4 Enter -> 5 Enter
4 Leave -> 9 Enter
5 Enter -> 6 Enter
5 Leave -> 8 Enter
6 Enter -> 6 Leave
6 Leave -> 5 Leave (zero 6), 7 Enter (nonzero 6)
7 Enter -> 7 Leave
7 Leave -> 9 Enter
8 Enter -> 8 Leave
8 Leave -> 3 Leave
9 Enter -> 9 Leave
9 Leave -> 3 Leave (zero 9), 4 Enter (nonzero 9)
",
    ),
    (
        "int main(void){do do continue;while(1);while(2);}",
        "\
1 Enter -> 2 Enter
1 Leave -> 1 Finish
1 Finish -> none
2 Enter -> 3 Enter
2 Leave -> 1 Leave
3 Enter -> 4 Enter
3 Leave -> 2 Leave
4 Enter -> 5 Enter
4 Leave -> 7 Enter
5 Enter -> 5 Leave
5 Leave -> 6 Enter
6 Enter -> 6 Leave
6 Leave -> 4 Leave (zero 6), 5 Enter (nonzero 6)
7 Enter -> 7 Leave
7 Leave -> 3 Leave (zero 7), 4 Enter (nonzero 7)
",
    ),
];

const FOR: [(&str, &str); 6] = [
    (
        "int main(void){for(1;2;3){if(4)continue;break;}}",
        "\
1 Enter -> 2 Enter
1 Leave -> 1 Finish
1 Finish -> none
2 Enter -> 3 Enter
2 Leave -> 1 Leave
3 Enter -> 4 Enter
3 Leave -> 2 Leave
4 Enter -> 4 Leave
4 Leave -> 5 Enter
5 Enter -> 5 Leave
5 Leave -> 3 Leave (zero 5), 7 Enter (nonzero 5)
6 Enter -> 6 Leave
6 Leave -> 5 Enter
7 Enter -> 8 Enter
7 Leave -> 6 Enter
8 Enter -> 9 Enter
8 Leave -> 11 Enter
9 Enter -> 9 Leave
9 Leave -> 8 Leave (zero 9), 10 Enter (nonzero 9)
10 Enter -> 10 Leave
10 Leave -> 6 Enter
11 Enter -> 11 Leave
11 Leave -> 3 Leave
",
    ),
    (
        "int main(void){for(;1;2)3;}",
        "\
1 Enter -> 2 Enter
1 Leave -> 1 Finish
1 Finish -> none
2 Enter -> 3 Enter
2 Leave -> 1 Leave
3 Enter -> 4 Enter
3 Leave -> 2 Leave
4 Enter -> 4 Leave
4 Leave -> 3 Leave (zero 4), 6 Enter (nonzero 4)
5 Enter -> 5 Leave
5 Leave -> 4 Enter
6 Enter -> 7 Enter
6 Leave -> 5 Enter
7 Enter -> 7 Leave
7 Leave -> 6 Leave
",
    ),
    (
        "int main(void){for(1;;2)continue;}",
        "\
1 Enter -> 2 Enter
1 Leave -> 1 Finish
1 Finish -> none
2 Enter -> 3 Enter
2 Leave -> 1 Leave
3 Enter -> 4 Enter
3 Leave -> 2 Leave
4 Enter -> 4 Leave
4 Leave -> 6 Enter
5 Enter -> 5 Leave
5 Leave -> 6 Enter
6 Enter -> 6 Leave
6 Leave -> 5 Enter
",
    ),
    (
        "int main(void){for(1;2;)continue;}",
        "\
1 Enter -> 2 Enter
1 Leave -> 1 Finish
1 Finish -> none
2 Enter -> 3 Enter
2 Leave -> 1 Leave
3 Enter -> 4 Enter
3 Leave -> 2 Leave
4 Enter -> 4 Leave
4 Leave -> 5 Enter
5 Enter -> 5 Leave
5 Leave -> 3 Leave (zero 5), 6 Enter (nonzero 5)
6 Enter -> 6 Leave
6 Leave -> 5 Enter
",
    ),
    (
        "int main(void){for(;;)continue;for(;;)break;}",
        "\
1 Enter -> 2 Enter
1 Leave -> 1 Finish
1 Finish -> none
2 Enter -> 3 Enter
2 Leave -> 1 Leave
3 Enter -> 4 Enter
3 Leave -> 5 Enter
4 Enter -> 4 Leave
4 Leave -> 4 Enter
5 Enter -> 6 Enter
5 Leave -> 2 Leave
6 Enter -> 6 Leave
6 Leave -> 5 Leave
",
    ),
    (
        "int main(void){for(int i=1,j;2;)3;}",
        "\
1 Enter -> 2 Enter
1 Leave -> 1 Finish
1 Finish -> none
2 Enter -> 3 Enter
2 Leave -> 1 Leave
3 Enter -> 4 Enter
3 Leave -> 2 Leave
4 Enter -> 5 Enter
4 Leave -> 8 Enter
5 Enter -> 6 Enter
5 Leave -> 7 Enter
6 Enter -> 6 Leave
6 Leave -> 5 Leave
7 Enter -> 7 Leave
7 Leave -> 4 Leave
8 Enter -> 8 Leave
8 Leave -> 3 Leave (zero 8), 9 Enter (nonzero 8)
9 Enter -> 10 Enter
9 Leave -> 8 Enter
10 Enter -> 10 Leave
10 Leave -> 9 Leave
",
    ),
];

#[test]
fn loops_go_round(rt: HostRuntime) -> Result<(), AllocError> {
    let Ok(table) = profile(rt.alloc()) else {
        return Err(AllocError);
    };
    assert_eq!(rt; first_wrong(rt.alloc(), &table, &LOOPS, View::Graph)?, None);
    assert_eq!(rt; first_wrong(rt.alloc(), &table, &FOR, View::Graph)?, None);
    Ok(())
}

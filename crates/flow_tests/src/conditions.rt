//! Control goes by the value of a condition (C11 6.8.4.1, 6.5.13 to 6.5.15).

use crate::shown::{View, first_wrong};
use posix_table::profile;
use std::alloc::AllocError;

const SELECTIONS: [(&str, &str); 3] = [
    (
        "int main(void){if(1)2;}",
        "\
1 Enter -> 2 Enter
1 Leave -> 1 Finish
1 Finish -> none
2 Enter -> 3 Enter
2 Leave -> 1 Leave
3 Enter -> 4 Enter
3 Leave -> 2 Leave
4 Enter -> 4 Leave
4 Leave -> 3 Leave (zero 4), 5 Enter (nonzero 4)
5 Enter -> 6 Enter
5 Leave -> 3 Leave
6 Enter -> 6 Leave
6 Leave -> 5 Leave
",
    ),
    (
        "int main(void){if(1);else 2;}",
        "\
1 Enter -> 2 Enter
1 Leave -> 1 Finish
1 Finish -> none
2 Enter -> 3 Enter
2 Leave -> 1 Leave
3 Enter -> 4 Enter
3 Leave -> 2 Leave
4 Enter -> 4 Leave
4 Leave -> 5 Enter (nonzero 4), 6 Enter (zero 4)
5 Enter -> 5 Leave
5 Leave -> 3 Leave
6 Enter -> 7 Enter
6 Leave -> 3 Leave
7 Enter -> 7 Leave
7 Leave -> 6 Leave
",
    ),
    (
        "int main(void){if(1)if(2)return 3;else;4;}",
        "\
1 Enter -> 2 Enter
1 Leave -> 1 Finish
1 Finish -> none
2 Enter -> 3 Enter
2 Leave -> 1 Leave
3 Enter -> 4 Enter
3 Leave -> 10 Enter
4 Enter -> 4 Leave
4 Leave -> 3 Leave (zero 4), 5 Enter (nonzero 4)
5 Enter -> 6 Enter
5 Leave -> 3 Leave
6 Enter -> 6 Leave
6 Leave -> 7 Enter (nonzero 6), 9 Enter (zero 6)
7 Enter -> 8 Enter
7 Leave -> 1 Leave
8 Enter -> 8 Leave
8 Leave -> 7 Leave
9 Enter -> 9 Leave
9 Leave -> 5 Leave
10 Enter -> 11 Enter
10 Leave -> 2 Leave
11 Enter -> 11 Leave
11 Leave -> 10 Leave
",
    ),
];

const OPERATORS: [(&str, &str); 4] = [
    (
        "int main(void){return 1&&2;}",
        "\
1 Enter -> 2 Enter
1 Leave -> 1 Finish
1 Finish -> none
2 Enter -> 3 Enter
2 Leave -> 1 Leave
3 Enter -> 4 Enter
3 Leave -> 1 Leave
4 Enter -> 5 Enter
4 Leave -> 3 Leave
5 Enter -> 5 Leave
5 Leave -> 4 Leave (zero 5), 6 Enter (nonzero 5)
6 Enter -> 6 Leave
6 Leave -> 4 Leave
",
    ),
    (
        "int main(void){return 1||2;}",
        "\
1 Enter -> 2 Enter
1 Leave -> 1 Finish
1 Finish -> none
2 Enter -> 3 Enter
2 Leave -> 1 Leave
3 Enter -> 4 Enter
3 Leave -> 1 Leave
4 Enter -> 5 Enter
4 Leave -> 3 Leave
5 Enter -> 5 Leave
5 Leave -> 4 Leave (nonzero 5), 6 Enter (zero 5)
6 Enter -> 6 Leave
6 Leave -> 4 Leave
",
    ),
    (
        "int main(void){return 1?2:3;}",
        "\
1 Enter -> 2 Enter
1 Leave -> 1 Finish
1 Finish -> none
2 Enter -> 3 Enter
2 Leave -> 1 Leave
3 Enter -> 4 Enter
3 Leave -> 1 Leave
4 Enter -> 5 Enter
4 Leave -> 3 Leave
5 Enter -> 5 Leave
5 Leave -> 6 Enter (nonzero 5), 7 Enter (zero 5)
6 Enter -> 6 Leave
6 Leave -> 4 Leave
7 Enter -> 7 Leave
7 Leave -> 4 Leave
",
    ),
    (
        "int main(void){if(1||2&&3);}",
        "\
1 Enter -> 2 Enter
1 Leave -> 1 Finish
1 Finish -> none
2 Enter -> 3 Enter
2 Leave -> 1 Leave
3 Enter -> 4 Enter
3 Leave -> 2 Leave
4 Enter -> 5 Enter
4 Leave -> 3 Leave (zero 4), 9 Enter (nonzero 4)
5 Enter -> 5 Leave
5 Leave -> 4 Leave (nonzero 5), 6 Enter (zero 5)
6 Enter -> 7 Enter
6 Leave -> 4 Leave
7 Enter -> 7 Leave
7 Leave -> 6 Leave (zero 7), 8 Enter (nonzero 7)
8 Enter -> 8 Leave
8 Leave -> 6 Leave
9 Enter -> 9 Leave
9 Leave -> 3 Leave
",
    ),
];

#[test]
fn control_goes_by_the_condition(rt: HostRuntime) -> Result<(), AllocError> {
    let Ok(table) = profile(rt.alloc()) else {
        return Err(AllocError);
    };
    assert_eq!(rt;
        first_wrong(rt.alloc(), &table, &SELECTIONS, View::Graph)?,
        None
    );
    assert_eq!(rt;
        first_wrong(rt.alloc(), &table, &OPERATORS, View::Graph)?,
        None
    );
    Ok(())
}

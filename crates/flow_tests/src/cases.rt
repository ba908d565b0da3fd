//! A switch goes to the label with its value, else to the default, else to its end (C11 6.8.4.2).

use crate::shown::{View, first_wrong};
use posix_table::profile;
use std::alloc::AllocError;

const SWITCHES: [(&str, &str); 5] = [
    (
        "int main(void){switch(1){case 2:3;break;default:;case 4:;}}",
        "\
1 Enter -> 2 Enter
1 Leave -> 1 Finish
1 Finish -> none
2 Enter -> 3 Enter
2 Leave -> 1 Leave
3 Enter -> 4 Enter
3 Leave -> 2 Leave
4 Enter -> 4 Leave
4 Leave -> 6 Enter (equal 4 2), 11 Enter (none of 3), 13 Enter (equal 4 4)
5 Enter -> 6 Enter
5 Leave -> 3 Leave
6 Enter -> 6 Leave
6 Leave -> 8 Enter
8 Enter -> 9 Enter
8 Leave -> 10 Enter
9 Enter -> 9 Leave
9 Leave -> 8 Leave
10 Enter -> 10 Leave
10 Leave -> 3 Leave
11 Enter -> 11 Leave
11 Leave -> 12 Enter
12 Enter -> 12 Leave
12 Leave -> 13 Enter
13 Enter -> 13 Leave
13 Leave -> 15 Enter
15 Enter -> 15 Leave
15 Leave -> 5 Leave
",
    ),
    (
        "int main(void){switch(1){case -2:;}}",
        "\
1 Enter -> 2 Enter
1 Leave -> 1 Finish
1 Finish -> none
2 Enter -> 3 Enter
2 Leave -> 1 Leave
3 Enter -> 4 Enter
3 Leave -> 2 Leave
4 Enter -> 4 Leave
4 Leave -> 3 Leave (none of 3), 6 Enter (equal 4 -2)
5 Enter -> 6 Enter
5 Leave -> 3 Leave
6 Enter -> 6 Leave
6 Leave -> 9 Enter
9 Enter -> 9 Leave
9 Leave -> 5 Leave
",
    ),
    (
        "int main(void){switch(1){default:;}}",
        "\
1 Enter -> 2 Enter
1 Leave -> 1 Finish
1 Finish -> none
2 Enter -> 3 Enter
2 Leave -> 1 Leave
3 Enter -> 4 Enter
3 Leave -> 2 Leave
4 Enter -> 4 Leave
4 Leave -> 6 Enter (none of 3)
5 Enter -> 6 Enter
5 Leave -> 3 Leave
6 Enter -> 6 Leave
6 Leave -> 7 Enter
7 Enter -> 7 Leave
7 Leave -> 5 Leave
",
    ),
    (
        "int main(void){switch(1){2;}switch(3){}}",
        "\
1 Enter -> 2 Enter
1 Leave -> 1 Finish
1 Finish -> none
2 Enter -> 3 Enter
2 Leave -> 1 Leave
3 Enter -> 4 Enter
3 Leave -> 8 Enter
4 Enter -> 4 Leave
4 Leave -> 3 Leave (none of 3)
5 Enter -> 6 Enter
5 Leave -> 3 Leave
6 Enter -> 7 Enter
6 Leave -> 5 Leave
7 Enter -> 7 Leave
7 Leave -> 6 Leave
8 Enter -> 9 Enter
8 Leave -> 2 Leave
9 Enter -> 9 Leave
9 Leave -> 8 Leave (none of 8)
10 Enter -> 10 Leave
10 Leave -> 8 Leave
",
    ),
    (
        "int main(void){while(1)switch(2){case 3:continue;case 4:break;}}",
        "\
1 Enter -> 2 Enter
1 Leave -> 1 Finish
1 Finish -> none
2 Enter -> 3 Enter
2 Leave -> 1 Leave
3 Enter -> 4 Enter
3 Leave -> 2 Leave
4 Enter -> 4 Leave
4 Leave -> 3 Leave (zero 4), 5 Enter (nonzero 4)
5 Enter -> 6 Enter
5 Leave -> 4 Enter
6 Enter -> 6 Leave
6 Leave -> 5 Leave (none of 5), 8 Enter (equal 6 3), 11 Enter (equal 6 4)
7 Enter -> 8 Enter
7 Leave -> 5 Leave
8 Enter -> 8 Leave
8 Leave -> 10 Enter
10 Enter -> 10 Leave
10 Leave -> 4 Enter
11 Enter -> 11 Leave
11 Leave -> 13 Enter
13 Enter -> 13 Leave
13 Leave -> 5 Leave
",
    ),
];

#[test]
fn a_switch_goes_to_its_label(rt: HostRuntime) -> Result<(), AllocError> {
    let Ok(table) = profile(rt.alloc()) else {
        return Err(AllocError);
    };
    assert_eq!(rt;
        first_wrong(rt.alloc(), &table, &SWITCHES, View::Graph)?,
        None
    );
    Ok(())
}

//! Where values are pending: evaluated, and not yet used.

use crate::shown::{View, first_wrong};
use posix_table::profile;
use std::alloc::AllocError;

/// Values that a later operand makes wait, and such as are used at once.
const OPERANDS: [(&str, &str); 6] = [
    (
        "int main(void){int a,b;a=b+1*2;}",
        "\
1: 1 Leave
8: 8 Leave, 9 Enter, 9 Leave, 10 Enter, 10 Leave, 11 Enter, 11 Leave, 12 Enter, 12 Leave, 13 Enter, 13 Leave
9: 9 Leave
10: 10 Leave, 11 Enter, 11 Leave, 12 Enter, 12 Leave, 13 Enter, 13 Leave
11: 11 Leave
12: 12 Leave, 13 Enter, 13 Leave
13: 13 Leave
",
    ),
    (
        "int*p;int main(void){p[1]++;}",
        "\
3: 3 Leave
7: 7 Leave
8: 8 Leave, 9 Enter, 9 Leave
9: 9 Leave
",
    ),
    (
        "int main(void){return 1&&2;}",
        "\
1: 1 Leave, 3 Leave
4: 4 Leave
5: 5 Leave
6: 6 Leave
",
    ),
    (
        "int main(void){(1?2:3)||4;}",
        "\
1: 1 Leave
5: 5 Leave
6: 6 Leave
7: 7 Leave
8: 8 Leave
9: 9 Leave
10: 10 Leave
",
    ),
    (
        "int main(void){(void)1;(int)2;1,-3;}",
        "\
1: 1 Leave
8: 8 Leave
12: 12 Leave
13: 13 Leave
",
    ),
    (
        "struct s{int m;}*q;int main(void){int a[2]={1,-2},b=q->m;}",
        "\
4: 4 Leave
10: 10 Leave, 11 Enter, 11 Leave, 12 Enter, 12 Leave
11: 11 Leave
12: 12 Leave
14: 14 Leave
15: 15 Leave
",
    ),
];

/// Conditions, and results of functions.
const STATEMENTS: [(&str, &str); 3] = [
    (
        "int main(void){switch(1){case 2:;}while(3);do;while(4);if(5);}",
        "\
1: 1 Leave
4: 4 Leave
10: 10 Leave
14: 14 Leave
16: 16 Leave
",
    ),
    (
        "int main(void){for(1;2;3)4,5;}",
        "\
1: 1 Leave
5: 5 Leave
10: 10 Leave
",
    ),
    (
        "int f(int x){if(x)return 1;return 2;}void g(void){return;}int main(void){g();}",
        "\
1: 1 Leave, 6 Leave, 8 Leave
5: 5 Leave
7: 7 Leave
9: 9 Leave
10: 10 Leave
13: 13 Leave
",
    ),
];

/// What a call uses waits in the call; what a call holds itself, fork its result and sigsuspend the mask from before.
const CALLS: [(&str, &str); 4] = [
    (
        "int f(int x,int y);int main(void){return f(1,f(2,3));}",
        "\
5: 5 Leave, 7 Leave
8: 8 Leave
10: 8 In0, 10 Leave, 11 Enter, 11 In0, 11 Leave, 13 Enter, 13 Leave, 14 Enter, 14 Leave
11: 8 In0, 11 Leave
13: 11 In0, 13 Leave, 14 Enter, 14 Leave
14: 11 In0, 14 Leave
",
    ),
    (
        "int(*p)(int);int main(void){return p(1);}",
        "\
3: 3 Leave, 5 Leave
6: 6 Leave
7: 6 In0, 7 Leave, 8 Enter, 8 Leave
8: 6 In0, 8 Leave
",
    ),
    (
        "int main(void){return kill(fork(),2);}",
        "\
1: 1 Leave, 3 Leave
4: 4 Leave
6: 4 In0, 6 In1, 6 Leave, 8 Enter, 8 Leave
8: 4 In0, 8 Leave
",
    ),
    (
        "int main(void){sigset_t s;sigsuspend(&s);}",
        "\
1: 1 Leave
6: 6 In0
8: 6 In0, 8 Leave
9: 9 Leave
",
    ),
];

#[test]
fn values_wait_until_they_are_used(rt: HostRuntime) -> Result<(), AllocError> {
    let Ok(table) = profile(rt.alloc()) else {
        return Err(AllocError);
    };
    assert_eq!(rt;
        first_wrong(rt.alloc(), &table, &OPERANDS, View::Pending)?,
        None
    );
    assert_eq!(rt;
        first_wrong(rt.alloc(), &table, &STATEMENTS, View::Pending)?,
        None
    );
    assert_eq!(rt;
        first_wrong(rt.alloc(), &table, &CALLS, View::Pending)?,
        None
    );
    Ok(())
}

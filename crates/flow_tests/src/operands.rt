//! Operands from left to right, and declared names with their initialisers (C11 6.5, 6.7.9).

use crate::shown::{View, first_wrong};
use posix_table::profile;
use std::alloc::AllocError;

const OPERANDS: [(&str, &str); 4] = [
    (
        "int main(void){int a,*p;a=1+2,p[a]=-a;}",
        "\
1 Enter -> 2 Enter
1 Leave -> 1 Finish
1 Finish -> none
2 Enter -> 3 Enter
2 Leave -> 1 Leave
3 Enter -> 4 Enter
3 Leave -> 6 Enter
4 Enter -> 4 Leave
4 Leave -> 5 Enter
5 Enter -> 5 Leave
5 Leave -> 3 Leave
6 Enter -> 7 Enter
6 Leave -> 2 Leave
7 Enter -> 8 Enter
7 Leave -> 6 Leave
8 Enter -> 9 Enter
8 Leave -> 13 Enter
9 Enter -> 9 Leave
9 Leave -> 10 Enter
10 Enter -> 11 Enter
10 Leave -> 8 Leave
11 Enter -> 11 Leave
11 Leave -> 12 Enter
12 Enter -> 12 Leave
12 Leave -> 10 Leave
13 Enter -> 14 Enter
13 Leave -> 7 Leave
14 Enter -> 15 Enter
14 Leave -> 17 Enter
15 Enter -> 15 Leave
15 Leave -> 16 Enter
16 Enter -> 16 Leave
16 Leave -> 14 Leave
17 Enter -> 18 Enter
17 Leave -> 13 Leave
18 Enter -> 18 Leave
18 Leave -> 17 Leave
",
    ),
    (
        "struct p{int x[2];};int main(void){static int t=1;struct p v={{2,3}};int a=4;}",
        "\
4 Enter -> 5 Enter
4 Leave -> 4 Finish
4 Finish -> none
5 Enter -> 6 Enter
5 Leave -> 4 Leave
6 Enter -> 6 Leave
6 Leave -> 9 Enter
9 Enter -> 10 Enter
9 Leave -> 15 Enter
10 Enter -> 13 Enter
10 Leave -> 9 Leave
13 Enter -> 13 Leave
13 Leave -> 14 Enter
14 Enter -> 14 Leave
14 Leave -> 10 Leave
15 Enter -> 16 Enter
15 Leave -> 5 Leave
16 Enter -> 17 Enter
16 Leave -> 15 Leave
17 Enter -> 17 Leave
17 Leave -> 16 Leave
",
    ),
    (
        "struct p{int m;}v,*q;int main(void){(v.m)++;--q->m;&*\"s\";(void)'c';sizeof(int);}",
        "\
5 Enter -> 6 Enter
5 Leave -> 5 Finish
5 Finish -> none
6 Enter -> 7 Enter
6 Leave -> 5 Leave
7 Enter -> 8 Enter
7 Leave -> 12 Enter
8 Enter -> 9 Enter
8 Leave -> 7 Leave
9 Enter -> 10 Enter
9 Leave -> 8 Leave
10 Enter -> 11 Enter
10 Leave -> 9 Leave
11 Enter -> 11 Leave
11 Leave -> 10 Leave
12 Enter -> 13 Enter
12 Leave -> 16 Enter
13 Enter -> 14 Enter
13 Leave -> 12 Leave
14 Enter -> 15 Enter
14 Leave -> 13 Leave
15 Enter -> 15 Leave
15 Leave -> 14 Leave
16 Enter -> 17 Enter
16 Leave -> 20 Enter
17 Enter -> 18 Enter
17 Leave -> 16 Leave
18 Enter -> 19 Enter
18 Leave -> 17 Leave
19 Enter -> 19 Leave
19 Leave -> 18 Leave
20 Enter -> 21 Enter
20 Leave -> 23 Enter
21 Enter -> 22 Enter
21 Leave -> 20 Leave
22 Enter -> 22 Leave
22 Leave -> 21 Leave
23 Enter -> 24 Enter
23 Leave -> 6 Leave
24 Enter -> 24 Leave
24 Leave -> 23 Leave
",
    ),
    (
        "int main(void){int f(int x);enum{A=1}e;{}}",
        "\
1 Enter -> 2 Enter
1 Leave -> 1 Finish
1 Finish -> none
2 Enter -> 3 Enter
2 Leave -> 1 Leave
3 Enter -> 3 Leave
3 Leave -> 6 Enter
6 Enter -> 9 Enter
6 Leave -> 10 Enter
9 Enter -> 9 Leave
9 Leave -> 6 Leave
10 Enter -> 10 Leave
10 Leave -> 2 Leave
",
    ),
];

#[test]
fn operands_go_from_left_to_right(rt: HostRuntime) -> Result<(), AllocError> {
    let Ok(table) = profile(rt.alloc()) else {
        return Err(AllocError);
    };
    assert_eq!(rt;
        first_wrong(rt.alloc(), &table, &OPERANDS, View::Graph)?,
        None
    );
    Ok(())
}

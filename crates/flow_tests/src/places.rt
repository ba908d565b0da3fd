//! Where positions stand in the text, as the command shows them, and what is said of positions that a program lacks.

use crate::meaning::names_of;
use crate::shown::{View, first_wrong};
use crate::text::program;
use base_core::{NodeId, Phase, Place, Pos};
use flow_form::{Flow, Meaning, flow};
use posix_table::profile;
use std::alloc::AllocError;

const PLACES: [(&str, &str); 2] = [
    (
        "int main(void){return 0;}",
        "\
1 Enter 1:1 -> 2 Enter
1 Leave 1:25 -> 1 Finish
1 Finish 1:25 -> none
2 Enter 1:15 -> 3 Enter
2 Leave 1:15 -> 1 Leave
3 Enter 1:16 -> 4 Enter
3 Leave 1:16 -> 1 Leave
4 Enter 1:23 -> 4 Leave
4 Leave 1:23 -> 3 Leave
",
    ),
    (
        "void g(void) {\n  ;\n}\nint main(void) {\n  g();\n}\n",
        "\
1 Enter 1:1 -> 2 Enter
1 Leave 3:1 -> none
2 Enter 1:14 -> 3 Enter
2 Leave 1:14 -> 1 Leave
3 Enter 2:3 -> 3 Leave
3 Leave 2:3 -> 2 Leave
4 Enter 4:1 -> 5 Enter
4 Leave 6:1 -> 4 Finish
4 Finish 6:1 -> none
5 Enter 4:16 -> 6 Enter
5 Leave 4:16 -> 4 Leave
6 Enter 5:3 -> 7 Enter
6 Leave 5:3 -> 5 Leave
7 Enter 5:3 -> 7 In0
7 In0 5:3 -> 7 Leave
7 Leave 5:3 -> 6 Leave
",
    ),
];

#[test]
fn positions_stand_at_their_nodes(rt: HostRuntime) -> Result<(), AllocError> {
    let Ok(table) = profile(rt.alloc()) else {
        return Err(AllocError);
    };
    assert_eq!(rt;
        first_wrong(rt.alloc(), &table, &PLACES, View::Places)?,
        None
    );
    Ok(())
}

/// Positions that the program `int main(void){return 0;}` lacks: of the program itself, of a call, past its nodes.
const ABSENT: [Pos; 6] = [
    Pos {
        node: NodeId(0),
        phase: Phase::Enter,
    },
    Pos {
        node: NodeId(4),
        phase: Phase::In0,
    },
    Pos {
        node: NodeId(4),
        phase: Phase::Finish,
    },
    Pos {
        node: NodeId(2),
        phase: Phase::In1,
    },
    Pos {
        node: NodeId(5),
        phase: Phase::Enter,
    },
    Pos {
        node: NodeId(u32::MAX),
        phase: Phase::Finish,
    },
];

/// Whether nothing is said of a position but that its place is the end of the text.
fn is_absent(flow: &Flow<'_>, p: Pos, end: Place) -> bool {
    !flow.has(p)
        && flow.next(p).is_empty()
        && flow.line(p) == end
        && flow.called(p).is_none()
        && !flow.pending(NodeId(1), p)
        && !flow.pending(p.node, p)
}

fn are_absent(flow: &Flow<'_>, end: Place) -> bool {
    for p in ABSENT {
        if !is_absent(flow, p, end) {
            return false;
        }
    }
    !flow.reads(NodeId(0)) && !flow.reads(NodeId(5)) && !flow.reads(NodeId(u32::MAX))
}

#[test]
fn nothing_is_at_other_positions(rt: HostRuntime) -> Result<(), AllocError> {
    let Ok(table) = profile(rt.alloc()) else {
        return Err(AllocError);
    };
    let Some(program) = program(rt.alloc(), b"int main(void){return 0;}\n") else {
        return Err(AllocError);
    };
    let names = names_of(rt.alloc(), &program, &table)?;
    let meaning = Meaning {
        names: &names,
        table: &table,
    };
    let flow = flow(rt.alloc(), meaning, &program)?;
    let end = Place {
        file: 0,
        line: 2,
        column: 1,
    };
    assert!(rt; are_absent(&flow, end));
    assert_eq!(rt; flow.names().main, 1);
    Ok(())
}

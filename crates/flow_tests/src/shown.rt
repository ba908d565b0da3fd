use crate::meaning::names_of;
use crate::text::program;
use base_core::{NodeId, Phase, Place, Pos};
use c_tree::Program;
use flow_form::{Edge, Flow, Guard, Meaning, Names, flow};
use posix_table::Table;
use std::alloc::{AllocError, Global};

/// What is shown of a program.
#[derive(Clone, Copy)]
pub(crate) enum View {
    /// A line for each position, in order: the position, and its edges with their guards.
    Graph,
    /// The same with the line and column of each position.
    Places,
    /// A line for each node whose value is pending somewhere, with the positions where it is.
    Pending,
    /// The nodes that are read.
    Reads,
    /// The positions at which a library function is called, with its name.
    Called,
}

const PHASES: [Phase; 5] = [
    Phase::Enter,
    Phase::In0,
    Phase::In1,
    Phase::Leave,
    Phase::Finish,
];

fn phase_name(phase: Phase) -> &'static str {
    match phase {
        Phase::Enter => "Enter",
        Phase::In0 => "In0",
        Phase::In1 => "In1",
        Phase::Leave => "Leave",
        Phase::Finish => "Finish",
    }
}

fn push_position(out: &mut String, p: Pos) -> Result<(), AllocError> {
    let node = p.node.0;
    let phase = phase_name(p.phase);
    write!(out, "{node} {phase}")
}

fn push_place(out: &mut String, place: Place) -> Result<(), AllocError> {
    let Place { line, column, .. } = place;
    write!(out, " {line}:{column}")
}

fn push_guard(out: &mut String, guard: Guard) -> Result<(), AllocError> {
    match guard {
        Guard::Always => Ok(()),
        Guard::Nonzero(NodeId(n)) => write!(out, " (nonzero {n})"),
        Guard::Zero(NodeId(n)) => write!(out, " (zero {n})"),
        Guard::Equal(NodeId(n), value) => write!(out, " (equal {n} {value})"),
        Guard::NoneOf(NodeId(n)) => write!(out, " (none of {n})"),
    }
}

fn push_edges(out: &mut String, edges: &[Edge]) -> Result<(), AllocError> {
    if edges.is_empty() {
        return out.push_str(" none");
    }
    let mut separator = " ";
    for edge in edges {
        out.push_str(separator)?;
        push_position(out, edge.to)?;
        push_guard(out, edge.guard)?;
        separator = ", ";
    }
    Ok(())
}

/// The line of a position.
fn push_row(out: &mut String, flow: &Flow<'_>, p: Pos, placed: bool) -> Result<(), AllocError> {
    push_position(out, p)?;
    if placed {
        push_place(out, flow.line(p))?;
    }
    out.push_str(" ->")?;
    push_edges(out, flow.next(p))?;
    out.push('\n')
}

fn push_rows(out: &mut String, flow: &Flow<'_>, n: u32, placed: bool) -> Result<(), AllocError> {
    for phase in PHASES {
        let node = NodeId(n);
        let p = Pos { node, phase };
        if flow.has(p) {
            push_row(out, flow, p, placed)?;
        }
    }
    Ok(())
}

/// The positions of the node `m` at which the value of `n` is pending.
fn push_holding(out: &mut String, flow: &Flow<'_>, n: u32, m: u32) -> Result<(), AllocError> {
    for phase in PHASES {
        let node = NodeId(m);
        let p = Pos { node, phase };
        if flow.pending(NodeId(n), p) {
            out.push_str(", ")?;
            push_position(out, p)?;
        }
    }
    Ok(())
}

/// The line of the pending value of `n`; nothing where it is pending nowhere.
fn push_pending(
    alloc: Global,
    out: &mut String,
    flow: &Flow<'_>,
    n: u32,
    count: u32,
) -> Result<(), AllocError> {
    let mut all = String::new(alloc);
    for m in 0..count {
        push_holding(&mut all, flow, n, m)?;
    }
    if let Some(positions) = all.as_str().strip_prefix(", ") {
        write!(out, "{n}: {positions}\n")?;
    }
    Ok(())
}

fn push_called(out: &mut String, flow: &Flow<'_>, n: u32) -> Result<(), AllocError> {
    for phase in PHASES {
        let node = NodeId(n);
        let p = Pos { node, phase };
        if let Some(name) = flow.called(p) {
            push_position(out, p)?;
            write!(out, " {name}\n")?;
        }
    }
    Ok(())
}

/// What is shown of the node `n`.
fn push_node(
    alloc: Global,
    out: &mut String,
    flow: &Flow<'_>,
    view: View,
    n: u32,
    count: u32,
) -> Result<(), AllocError> {
    match view {
        View::Graph => push_rows(out, flow, n, false),
        View::Places => push_rows(out, flow, n, true),
        View::Pending => push_pending(alloc, out, flow, n, count),
        View::Called => push_called(out, flow, n),
        View::Reads => {
            if flow.reads(NodeId(n)) {
                write!(out, "{n} ")
            } else {
                Ok(())
            }
        }
    }
}

fn shown_flow(
    alloc: Global,
    flow: &Flow<'_>,
    view: View,
    count: u32,
) -> Result<String, AllocError> {
    let mut out = String::new(alloc);
    for n in 0..count {
        push_node(alloc, &mut out, flow, view, n, count)?;
    }
    Ok(out)
}

fn shown_program(
    alloc: Global,
    table: &Table,
    program: &Program,
    names: &Names,
    view: View,
) -> Result<String, AllocError> {
    let flow = flow(alloc, Meaning { names, table }, program)?;
    shown_flow(alloc, &flow, view, program.count())
}

/// What is shown of the program of a text; that there is none, where the text is no program.
pub(crate) fn shown(
    alloc: Global,
    table: &Table,
    text: &str,
    view: View,
) -> Result<String, AllocError> {
    match program(alloc, text.as_bytes()) {
        Some(program) => {
            let names = names_of(alloc, &program, table)?;
            shown_program(alloc, table, &program, &names, view)
        }
        None => format!(in alloc; "no program"),
    }
}

/// The first of these texts that is shown otherwise than what stands beside it.
pub(crate) fn first_wrong<'a>(
    alloc: Global,
    table: &Table,
    cases: &[(&'a str, &str)],
    view: View,
) -> Result<Option<&'a str>, AllocError> {
    for (text, want) in cases {
        let out = shown(alloc, table, text, view)?;
        if out.as_str() != *want {
            return Ok(Some(text));
        }
    }
    Ok(None)
}

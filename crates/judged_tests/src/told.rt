use base_core::{NodeId, Place};
use c_judged::judge;
use c_lexer::scan;
use c_parser::parse;
use c_rules::MisfitKind;
use c_tree::Program;
use posix_table::{Table, profile};
use std::alloc::{AllocError, Global};

/// The program of this text, if it is one.
pub(crate) fn program(alloc: Global, text: &[u8]) -> Option<Program> {
    if text.len() > 1_048_576 {
        return None;
    }
    let Ok(tokens) = scan(alloc, text) else {
        return None;
    };
    parse(alloc, &tokens).ok()
}

/// The name of the rule in the tables.
fn kind_name(kind: MisfitKind) -> &'static str {
    match kind {
        MisfitKind::UnknownName => "UnknownName",
        MisfitKind::DeclaredTwice => "DeclaredTwice",
        MisfitKind::NotCallable => "NotCallable",
        MisfitKind::WrongCount => "WrongCount",
        MisfitKind::KindMismatch => "KindMismatch",
        MisfitKind::NotConstant => "NotConstant",
        MisfitKind::LeftOut => "LeftOut",
        MisfitKind::NoMain => "NoMain",
        MisfitKind::NotAssignable => "NotAssignable",
        MisfitKind::LibraryAsValue => "LibraryAsValue",
    }
}

/// Where the misfit of a node is told: at its first token, and that of the program itself at the end of the text.
fn place_of(program: &Program, node: usize) -> Option<Place> {
    if node == 0 {
        return Some(program.end());
    }
    match u32::try_from(node) {
        Ok(n) => program.place(NodeId(n)),
        Err(_) => None,
    }
}

fn shown_misfit(
    alloc: Global,
    place: Option<Place>,
    kind: MisfitKind,
) -> Result<String, AllocError> {
    let name = kind_name(kind);
    match place {
        Some(Place { line, column, .. }) => format!(in alloc; "{name} {line}:{column}"),
        None => format!(in alloc; "{name} nowhere"),
    }
}

/// What is told of a program: that it fits, or the rule that is broken with the line and the column of the node that breaks it.
fn told_of(alloc: Global, table: &Table, program: &Program) -> Result<String, AllocError> {
    let judged = judge(alloc, table, program.items().as_slice())?;
    match judged.misfit {
        Some((node, kind)) => shown_misfit(alloc, place_of(program, node), kind),
        None => format!(in alloc; "fits"),
    }
}

/// The same of a text; that there is no program, where the text is none.
fn told(alloc: Global, table: &Table, text: &str) -> Result<String, AllocError> {
    match program(alloc, text.as_bytes()) {
        Some(program) => told_of(alloc, table, &program),
        None => format!(in alloc; "no program"),
    }
}

/// The first of these texts of which something else is told than what stands beside it.
fn first_wrong<'a>(
    alloc: Global,
    table: &Table,
    rows: &[(&'a str, &str)],
) -> Result<Option<&'a str>, AllocError> {
    for (text, want) in rows {
        let out = told(alloc, table, text)?;
        if out.as_str() != *want {
            return Ok(Some(text));
        }
    }
    Ok(None)
}

/// The first such text of some tables.
pub(crate) fn wrong_in<'a>(
    alloc: Global,
    tables: &[&[(&'a str, &str)]],
) -> Result<Option<&'a str>, AllocError> {
    let Ok(table) = profile(alloc) else {
        return Err(AllocError);
    };
    for rows in tables {
        if let Some(text) = first_wrong(alloc, &table, rows)? {
            return Ok(Some(text));
        }
    }
    Ok(None)
}

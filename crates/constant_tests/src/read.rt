use c_lexer::scan;
use c_parser::parse;
use c_tree::{Enumerator, Expr, Item, Program, SpecWord};
use std::alloc::Global;

/// The program of this text, if it is one.
fn program(alloc: Global, text: &[u8]) -> Option<Program> {
    if text.len() > 1_048_576 {
        return None;
    }
    let Ok(tokens) = scan(alloc, text) else {
        return None;
    };
    parse(alloc, &tokens).ok()
}

/// The program that declares enumerators by this text.
pub(crate) fn enumeration(alloc: Global, list: &str) -> Option<Program> {
    let Ok(text) = format!(in alloc; "enum {{ {list} }};") else {
        return None;
    };
    program(alloc, text.as_bytes())
}

/// The enumerators of a program that is one such declaration.
pub(crate) fn enumerators(program: &Program) -> Option<&[Enumerator]> {
    match program.items().as_slice() {
        [Item::Decl(decl)] => match decl.specs.as_slice() {
            [SpecWord::Enum(_, list, _)] => Some(list.as_slice()),
            _ => None,
        },
        _ => None,
    }
}

/// The expression of its only enumerator.
pub(crate) fn expression(program: &Program) -> Option<&Expr> {
    match enumerators(program)? {
        [one] => one.value.as_ref(),
        _ => None,
    }
}

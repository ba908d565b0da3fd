use c_lexer::scan;
use c_parser::parse;
use c_tree::Program;
use std::alloc::Global;

/// The program of this text, if it is one.
pub(crate) fn program(alloc: Global, text: &[u8]) -> Option<Program> {
    if text.len() > 1_048_576 {
        return None;
    }
    let Ok(tokens) = scan(alloc, text) else {
        return None;
    };
    parse(alloc, &tokens).ok()
}

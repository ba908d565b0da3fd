use base_core::{Class, Lexeme, Token};
use c_grammar::{Cursor, Kind, same_kind};
use std::alloc::Global;
use std::test::Fail;

fn token(alloc: Global, class: Class, text: &[u8]) -> Result<Token, Fail> {
    Ok(Token {
        class,
        lexeme: Lexeme::new(alloc, text)?,
    })
}

/// Whether a cursor over `volatile`, `>>=` and `float` tells their kinds, and counts to the limits.
fn passes_and_counts(tokens: &[Token]) -> bool {
    let mut cursor = Cursor::new(tokens, 1, 1);
    let first = same_kind(cursor.kind(), Kind::Volatile)
        && cursor.lexeme() == b"volatile".as_slice();
    cursor.take();
    let second = same_kind(cursor.kind(), Kind::GreaterGreaterAssign);
    let outer = cursor.enter(5);
    let paid = cursor.spend(99_998, 7)
        && cursor.rise()
        && !cursor.spend(2, 7)
        && cursor.spend(1, 999);
    let made = cursor.made() == 100_000;
    cursor.leave(outer);
    let deepest = cursor.peak() == 999;
    cursor.take();
    let third = same_kind(cursor.kind(), Kind::Foreign);
    cursor.take();
    let ended = same_kind(cursor.kind(), Kind::Nothing) && cursor.left() == 0;
    first && second && paid && made && deepest && third && ended
}

#[test]
fn a_cursor_passes_tokens_and_counts(rt: HostRuntime) -> Result<(), Fail> {
    let alloc = rt.alloc();
    let tokens = [
        token(alloc, Class::Keyword, b"volatile")?,
        token(alloc, Class::Punctuator, b">>=")?,
        token(alloc, Class::Keyword, b"float")?,
    ];
    assert!(rt; passes_and_counts(&tokens));
    Ok(())
}

//! The steps of which rules are made.

ghost use Rattle.std.specs.Prelude.{◌≡◌, length};
ghost use Rattle.c_grammar.specs.Kind as spec;
ghost use Rattle.c_grammar.specs.Body.{done};
ghost use Rattle.c_grammar.specs.Rules.{barred, a_name, a_new_name};
ghost use Rattle.c_grammar.specs.Gives.{Gives};
ghost use Rattle.c_grammar.specs.Performing.{perform};
ghost use Rattle.c_grammar.specs.declared.refusal.Refusal.TheVariants as refusal;
ghost use Rattle.c_grammar.specs.Stepping.{Spends, Raises, Expects, Takes};

use crate::environment::NameEnvironment;
use crate::refusal::Refusal;
use crate::{Cursor, Kind, same_kind};
use base_core::Lexeme;
use std::alloc::Global;

/// No rule goes on with the next token.
pub fn refused(cursor: &Cursor<'_>) -> Refusal
    ensures { result ≡ refusal.Syntax (length cursor.now.rest) }
{
    Refusal::Syntax(cursor.left())
}

/// With the next token a limit is passed.
pub fn exceeded(cursor: &Cursor<'_>) -> Refusal
    ensures { result ≡ refusal.Large (length cursor.now.rest) }
{
    Refusal::Large(cursor.left())
}

/// The kind of the next token, where it is used.
#[tactic(auto, using(crate::proofs::KindLemmas::kind_sorted))]
pub fn kind(types: &NameEnvironment<'_>, cursor: &Cursor<'_>) -> Kind
    ensures { result ≡ spec.kind types.now.types cursor.now.rest }
{
    let kind = cursor.kind();
    if same_kind(kind, Kind::Name) && types.types().contains(cursor.lexeme()) {
        Kind::TypeName
    } else {
        kind
    }
}

/// The kind of the next token, where a name would be declared: one that is reserved is none that may be.
#[tactic(auto, using(crate::proofs::KindLemmas::kind_beside))]
pub fn new_kind(types: &NameEnvironment<'_>, cursor: &Cursor<'_>) -> Kind
    ensures { result ≡ spec.kind (barred types.now) cursor.now.rest }
{
    let kind = cursor.kind();
    if same_kind(kind, Kind::Name)
        && (types.reserved().contains(cursor.lexeme()) || types.types().contains(cursor.lexeme()))
    {
        Kind::TypeName
    } else {
        kind
    }
}

/// The next token makes so many nodes more necessary, of this depth at most.
pub fn spend(cursor: &mut Cursor<'_>, nodes: u32, depth: u32) -> Result<(), Refusal>
    ensures { Spends nodes depth cursor.old result cursor.new }
{
    if cursor.spend(nodes, depth) {
        Ok(())
    } else {
        Err(exceeded(cursor))
    }
}

/// With the next token all that was read in this scope lies one node deeper.
pub fn rise(cursor: &mut Cursor<'_>) -> Result<(), Refusal>
    ensures { Raises cursor.old result cursor.new }
{
    if cursor.rise() {
        Ok(())
    } else {
        Err(exceeded(cursor))
    }
}

/// Takes a token of this kind.
pub fn expect(cursor: &mut Cursor<'_>, kind: Kind) -> Result<(), Refusal>
    ensures { Expects kind cursor.old result cursor.new }
{
    if same_kind(cursor.kind(), kind) {
        cursor.take();
        Ok(())
    } else {
        Err(refused(cursor))
    }
}

/// Takes the next token, for its text.
pub fn word(alloc: Global, cursor: &mut Cursor<'_>) -> Result<Lexeme, Refusal>
    ensures { Takes cursor.old result cursor.new }
{
    let text = Lexeme::new(alloc, cursor.lexeme())?;
    cursor.take();
    Ok(text)
}

/// A name that may be declared.
pub fn new_name(
    alloc: Global,
    types: &NameEnvironment<'_>,
    cursor: &mut Cursor<'_>,
) -> Result<Lexeme, Refusal>
    ensures { Gives (λ n. n) (perform (a_new_name types.now done) cursor.old) result cursor.new }
{
    match new_kind(types, cursor) {
        Kind::Name => word(alloc, cursor),
        _ => Err(refused(cursor)),
    }
}

/// A name that is no type.
pub fn name(
    alloc: Global,
    types: &NameEnvironment<'_>,
    cursor: &mut Cursor<'_>,
) -> Result<Lexeme, Refusal>
    ensures { Gives (λ n. n) (perform (a_name types.now done) cursor.old) result cursor.new }
{
    match kind(types, cursor) {
        Kind::Name => word(alloc, cursor),
        _ => Err(refused(cursor)),
    }
}

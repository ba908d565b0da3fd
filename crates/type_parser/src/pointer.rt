//! Stars and qualifiers.

ghost use Rattle.std.specs.Prelude.{◌≡◌};
ghost use Rattle.c_grammar.specs.Reading.{read};
ghost use Rattle.c_grammar.specs.Rules.{all_stars, all_quals};
ghost use Rattle.c_grammar.specs.Gives.{Gives};
ghost use Rattle.expression_parser.specs.Pointers as spec;
ghost use Rattle.c_grammar.specs.Performing.{perform};
ghost use Rattle.type_parser.specs.DeclaratorParts.{star};

use c_grammar::{Cursor, Kind, Refusal, same_kind};
use c_tree::{Qual, Quals, Stars};
use sqlite_items::Items;
use std::alloc::Global;

/// The qualifier that a token of this kind is.
fn qualifier(kind: Kind) -> Option<Qual>
    ensures { result ≡ spec.qualifier kind }
{
    match kind {
        Kind::Const => Some(Qual::Const),
        Kind::Volatile => Some(Qual::Volatile),
        _ => None,
    }
}

/// Qualifiers, as many as there are.
pub fn quals(alloc: Global, cursor: &mut Cursor<'_>) -> Result<Quals, Refusal>
    ensures { Gives (λ qs. qs) (read all_quals cursor.old) result cursor.new }
{
    let mut found = Items::new(alloc);
    while let Some(qual) = qualifier(cursor.kind()) {
        cursor.take();
        found.push(qual)?;
    }
    Ok(found)
}

/// A star, and its qualifiers.
fn star(alloc: Global, cursor: &mut Cursor<'_>) -> Result<Quals, Refusal>
    ensures { Gives (λ qs. qs) (perform star cursor.old) result cursor.new }
{
    cursor.take();
    quals(alloc, cursor)
}

/// Stars with their qualifiers, as many as there are.
pub fn stars(alloc: Global, cursor: &mut Cursor<'_>) -> Result<Stars, Refusal>
    ensures { Gives (λ ss. ss) (read all_stars cursor.old) result cursor.new }
{
    let mut found = Items::new(alloc);
    while same_kind(cursor.kind(), Kind::Star) {
        found.push(star(alloc, cursor)?)?;
    }
    Ok(found)
}

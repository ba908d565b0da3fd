//! Which words stand among specifiers and qualifiers (C11 6.7.2, 6.7.3).

ghost use Rattle.std.specs.Prelude.{◌≡◌, map};
ghost use Rattle.c_kinds.specs.View.{view};
ghost use Rattle.c_tree.specs.View.{view_specifier, specifiers_of};
ghost use Rattle.c_environment.specs.Types as plain;
ghost use Rattle.c_environment.specs.Words.{is_word};

use c_kinds::CType;
use c_tree::{Qual, SpecWord};

/// A word of specifiers whose place among them doesn't count.
#[derive(Clone, Copy)]
pub(crate) enum Word {
    Const,
    Volatile,
    Char,
    Short,
    Long,
    Unsigned,
}

fn is_word(asked: Word, word: &SpecWord) -> bool
    ensures { result ≡ is_word asked (view_specifier word.now) }
{
    match word {
        SpecWord::Const => matches!(asked, Word::Const),
        SpecWord::Volatile => matches!(asked, Word::Volatile),
        SpecWord::Char => matches!(asked, Word::Char),
        SpecWord::Short => matches!(asked, Word::Short),
        SpecWord::Long => matches!(asked, Word::Long),
        SpecWord::Unsigned => matches!(asked, Word::Unsigned),
        _ => false,
    }
}

/// Whether the word stands among the specifiers.
pub(crate) fn stands_among(asked: Word, specs: &[SpecWord]) -> bool
    ensures { result ≡ plain.stands_among (is_word asked) (specifiers_of (map view_specifier specs.now)) }
{
    for word in specs {
        if is_word(asked, word) {
            return true;
        }
    }
    false
}

/// How many bits the integer type of the specifiers has.
fn width(specs: &[SpecWord]) -> u8
    ensures { result ≡ plain.width (specifiers_of (map view_specifier specs.now)) }
{
    if stands_among(Word::Char, specs) {
        8
    } else if stands_among(Word::Short, specs) {
        16
    } else if stands_among(Word::Long, specs) {
        64
    } else {
        32
    }
}

/// The integer type of the specifiers.
pub(crate) fn integer_kind(specs: &[SpecWord]) -> CType
    ensures { view result ≡ plain.integer_kind (specifiers_of (map view_specifier specs.now)) }
{
    let signed = !stands_among(Word::Unsigned, specs);
    CType::Int(width(specs), signed)
}

/// Whether const stands among the qualifiers.
pub(crate) fn has_const(quals: &[Qual]) -> bool
    ensures { result ≡ plain.has_const quals.now }
{
    for qual in quals {
        match qual {
            Qual::Const => return true,
            Qual::Volatile => {}
        }
    }
    false
}

/// Whether volatile stands among the qualifiers.
pub(crate) fn has_volatile(quals: &[Qual]) -> bool
    ensures { result ≡ plain.has_volatile quals.now }
{
    for qual in quals {
        match qual {
            Qual::Volatile => return true,
            Qual::Const => {}
        }
    }
    false
}

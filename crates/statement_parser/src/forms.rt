//! Tests of what was read, which decide what may follow.

ghost use Rattle.std.specs.Prelude.{◌≡◌, map};
ghost use Rattle.std.specs.List.{list_any};
ghost use Rattle.c_tree.specs.TypeWords as words;
ghost use Rattle.c_tree.specs.View.{view_specifier, view_declarator, specifiers_of};
ghost use Rattle.c_grammar.specs.Rules as rules;
ghost use Rattle.statement_parser.specs.DeclarationParts as spec;

use c_grammar::Kind;
use c_tree::{Declarator, SpecWord};

/// Whether it is a struct or an enum, by its tag or its braces.
#[tactic(auto, using(c_tree::proofs::ViewLemmas::view_SpecWord_Const, c_tree::proofs::ViewLemmas::view_SpecWord_Volatile, c_tree::proofs::ViewLemmas::view_SpecWord_Void, c_tree::proofs::ViewLemmas::view_SpecWord_Char, c_tree::proofs::ViewLemmas::view_SpecWord_Short, c_tree::proofs::ViewLemmas::view_SpecWord_Int, c_tree::proofs::ViewLemmas::view_SpecWord_Long, c_tree::proofs::ViewLemmas::view_SpecWord_Signed, c_tree::proofs::ViewLemmas::view_SpecWord_Unsigned, c_tree::proofs::ViewLemmas::view_SpecWord_TypeName, c_tree::proofs::ViewLemmas::view_SpecWord_StructTag, c_tree::proofs::ViewLemmas::view_SpecWord_Struct, c_tree::proofs::ViewLemmas::view_SpecWord_EnumTag, c_tree::proofs::ViewLemmas::view_SpecWord_Enum))]
fn is_tag(word: &SpecWord) -> bool
    ensures { result ≡ spec.is_tag (view_specifier word.now) }
{
    match word {
        SpecWord::StructTag(_)
        | SpecWord::Struct(_, _)
        | SpecWord::EnumTag(_)
        | SpecWord::Enum(_, _, _) => true,
        SpecWord::Const
        | SpecWord::Volatile
        | SpecWord::Void
        | SpecWord::Char
        | SpecWord::Short
        | SpecWord::Int
        | SpecWord::Long
        | SpecWord::Signed
        | SpecWord::Unsigned
        | SpecWord::TypeName(_) => false,
    }
}

/// Whether one of them is a struct or an enum.
fn any_tag(all: &[SpecWord]) -> bool
    ensures { result ≡ list_any (λ w. spec.is_tag (view_specifier w)) all.now }
{
    all.iter().any(is_tag)
}

/// Whether a struct or an enum stands among the specifiers, by its tag or its braces.
#[tactic(auto, using(crate::proofs::Tags::tag_among))]
pub fn has_tag(all: &[SpecWord]) -> bool
    ensures { result ≡ words.has_tag (specifiers_of (map view_specifier all.now)) }
{
    any_tag(all)
}

/// Whether a declarator is of a function.
#[tactic(auto, using(c_tree::proofs::ViewLemmas::view_Declarator_Plain, c_tree::proofs::ViewLemmas::view_Declarator_Array, c_tree::proofs::ViewLemmas::view_Declarator_Function, c_tree::proofs::ViewLemmas::view_Declarator_Pointer))]
pub fn is_function(d: &Declarator) -> bool
    ensures { result ≡ rules.is_function (view_declarator d.now) }
{
    match d {
        Declarator::Function(_, _, _) => true,
        Declarator::Plain(_, _) | Declarator::Array(_, _, _) | Declarator::Pointer(_, _, _, _, _) =>
            false,
    }
}

/// Whether the declared name may have an initialiser: a function has none.
#[tactic(auto, using(crate::proofs::Tags::no_function))]
pub fn has_initializer(d: &Declarator) -> bool
    ensures { result ≡ rules.has_initializer (view_declarator d.now) }
{
    !is_function(d)
}

/// Whether a declarator begins with a token of this kind.
pub fn begins_declarator(kind: Kind) -> bool
    ensures { result ≡ rules.begins_declarator kind }
{
    match kind {
        Kind::Star | Kind::Name | Kind::OpenParen => true,
        _ => false,
    }
}

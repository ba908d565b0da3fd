//! The words that specify a type.

ghost use Rattle.std.specs.Prelude.{◌≡◌, ◌≤◌, ◌+◌, ◌*◌, Some, [], length, count_by, nat_le, IfOk};
ghost use Rattle.std.specs.List.{list_all};
ghost use Rattle.c_tree.specs.TypeWords as tree;
ghost use Rattle.c_tree.specs.View.{view_specifier};
ghost use Rattle.c_grammar.specs.Rules as rules;
ghost use Rattle.type_parser.specs.SpecifierWords as spec;
ghost use Rattle.type_parser.specs.SpecifierWords.{is_alone, Adds, Goes};

use c_grammar::{Kind, Start, TypeKeyword};
use c_tree::{Qual, SpecWord, TypeWord};
use sqlite_items::Items;
use std::alloc::{AllocError, Global};
use std::marker::Model;

/// The specifier that begins with a token of this kind.
pub fn start_of(kind: Kind) -> Option<Start>
    ensures { result ≡ rules.start_of kind }
{
    match kind {
        Kind::Const => Some(Start::Qualifier(Qual::Const)),
        Kind::Volatile => Some(Start::Qualifier(Qual::Volatile)),
        Kind::Void => Some(Start::Keyword(TypeKeyword::Void)),
        Kind::Char => Some(Start::Keyword(TypeKeyword::Char)),
        Kind::Short => Some(Start::Keyword(TypeKeyword::Short)),
        Kind::Int => Some(Start::Keyword(TypeKeyword::Int)),
        Kind::Long => Some(Start::Keyword(TypeKeyword::Long)),
        Kind::Signed => Some(Start::Keyword(TypeKeyword::Signed)),
        Kind::Unsigned => Some(Start::Keyword(TypeKeyword::Unsigned)),
        Kind::TypeName => Some(Start::TypeName),
        Kind::Struct => Some(Start::Struct),
        Kind::Enum => Some(Start::Enum),
        _ => None,
    }
}

/// The specifier that is this qualifier.
#[tactic(auto, using(c_tree::proofs::ViewLemmas::view_SpecWord_Const, c_tree::proofs::ViewLemmas::view_SpecWord_Volatile))]
pub fn qualifier(qual: Qual) -> SpecWord
    ensures { view_specifier result ≡ rules.qualifier_of qual }
{
    match qual {
        Qual::Const => SpecWord::Const,
        Qual::Volatile => SpecWord::Volatile,
    }
}

/// The specifier that is this keyword.
#[tactic(auto, using(c_tree::proofs::ViewLemmas::view_SpecWord_Void, c_tree::proofs::ViewLemmas::view_SpecWord_Char, c_tree::proofs::ViewLemmas::view_SpecWord_Short, c_tree::proofs::ViewLemmas::view_SpecWord_Int, c_tree::proofs::ViewLemmas::view_SpecWord_Long, c_tree::proofs::ViewLemmas::view_SpecWord_Signed, c_tree::proofs::ViewLemmas::view_SpecWord_Unsigned))]
pub fn keyword(word: TypeKeyword) -> SpecWord
    ensures { view_specifier result ≡ rules.keyword_of word }
{
    match word {
        TypeKeyword::Void => SpecWord::Void,
        TypeKeyword::Char => SpecWord::Char,
        TypeKeyword::Short => SpecWord::Short,
        TypeKeyword::Int => SpecWord::Int,
        TypeKeyword::Long => SpecWord::Long,
        TypeKeyword::Signed => SpecWord::Signed,
        TypeKeyword::Unsigned => SpecWord::Unsigned,
    }
}

/// Whether a name that has to follow is still not counted behind a specifier.
pub fn stays(owing: bool, start: Start) -> bool
    ensures { result ≡ spec.stays owing start }
{
    match start {
        Start::Qualifier(_) => owing,
        _ => false,
    }
}

/// The word of the type that a keyword is.
fn type_word(word: TypeKeyword) -> TypeWord
    ensures { result ≡ rules.type_word word }
{
    match word {
        TypeKeyword::Void => TypeWord::Void,
        TypeKeyword::Char => TypeWord::Char,
        TypeKeyword::Short => TypeWord::Short,
        TypeKeyword::Int => TypeWord::Int,
        TypeKeyword::Long => TypeWord::Long,
        TypeKeyword::Signed => TypeWord::Signed,
        TypeKeyword::Unsigned => TypeWord::Unsigned,
    }
}

/// The word of the type that a specifier is, if it is no qualifier.
fn word_of(start: Start) -> Option<TypeWord>
    ensures { result ≡ spec.word_of (Some start) }
{
    match start {
        Start::Qualifier(_) => None,
        Start::Keyword(word) => Some(type_word(word)),
        Start::TypeName | Start::Struct | Start::Enum => Some(TypeWord::Whole),
    }
}

/// The words of a type so far, in their order.
#[derive(Drop)]
pub struct Words {
    words: Items<TypeWord>,
}

impl Model for Words {
    ghost use Rattle.std.specs.Prelude.{List};
    ghost use Rattle.c_tree.specs.declared.type_word.TypeWord.{TypeWord};

    ghost Value = { List TypeWord };

    ghost view = { λ w. w.words };
}

impl Words {
    /// No words.
    pub fn new(alloc: Global) -> Self
        ensures { result ≡ [] }
    {
        Words {
            words: Items::new(alloc),
        }
    }

    /// Whether they name one type.
    pub fn is_whole(&self) -> bool
        ensures { result ≡ tree.is_one_type self.now }
    {
        is_one_type(self.words.as_slice())
    }

    /// Adds a word, if there is one; the answer is false, and nothing changes, where it may not follow those before it.
    fn add(&mut self, word: Option<TypeWord>) -> Result<bool, AllocError>
        ensures { IfOk result (λ added. Adds self.old word added self.new) }
    {
        let Some(word) = word else {
            return Ok(true);
        };
        self.words.push(word)?;
        if self.is_whole() {
            return Ok(true);
        }
        self.words.pop();
        Ok(false)
    }

    /// The specifier that begins with a token of this kind and goes on with these words, of which its own becomes the last.
    pub fn follow(&mut self, kind: Kind) -> Result<Option<Start>, AllocError>
        ensures { IfOk result (λ start. Goes (rules.start_of kind) self.old start self.new) }
    {
        let Some(start) = start_of(kind) else {
            return Ok(None);
        };
        if self.add(word_of(start))? {
            Ok(Some(start))
        } else {
            Ok(None)
        }
    }
}

/// Whether the words name one type.
fn is_one_type(words: &[TypeWord]) -> bool
    ensures { result ≡ tree.is_one_type words.now }
{
    is_alone(words) || is_integer_type(words)
}

/// Whether the words name a type that is no integer type of several words: one word alone, or a sign and `char`.
fn is_alone(words: &[TypeWord]) -> bool
    ensures { result ≡ is_alone words.now }
{
    match words {
        [TypeWord::Void | TypeWord::Char | TypeWord::Whole] => true,
        [TypeWord::Signed | TypeWord::Unsigned, TypeWord::Char] => true,
        _ => false,
    }
}

/// Whether the words name an integer type.
fn is_integer_type(words: &[TypeWord]) -> bool
    ensures { result ≡ tree.is_integer_type words.now }
{
    are_integer_words(words)
        && are_some(words)
        && have_one_sign(words)
        && have_one_int(words)
        && have_one_length(words)
}

/// Whether each word is one of an integer type.
fn are_integer_words(words: &[TypeWord]) -> bool
    ensures { result ≡ list_all tree.is_integer_word words.now }
{
    words.iter().all(|word| is_integer_word(*word))
}

/// Whether there is a word.
fn are_some(words: &[TypeWord]) -> bool
    ensures { result ≡ nat_le 1 (length words.now) }
{
    1 <= words.len()
}

/// Whether at most one of the words is a sign.
fn have_one_sign(words: &[TypeWord]) -> bool
    ensures { result ≡ nat_le (count_by tree.is_sign words.now) 1 }
{
    let signs = words.iter().filter(|word| is_sign(**word)).count();
    signs <= 1
}

/// Whether `int` is among the words once at most.
fn have_one_int(words: &[TypeWord]) -> bool
    ensures { result ≡ nat_le (count_by tree.is_int words.now) 1 }
{
    let ints = words.iter().filter(|word| is_int(**word)).count();
    ints <= 1
}

/// Whether one `short` or at most two `long` are among the words.
fn have_one_length(words: &[TypeWord]) -> bool
    ensures { result ≡ nat_le (2 * count_by tree.is_short words.now + count_by tree.is_long words.now) 2 }
{
    let shorts = shorts(words);
    let longs = longs(words);
    shorts <= 1 && 2 * shorts + longs <= 2
}

/// How often `short` is among the words.
fn shorts(words: &[TypeWord]) -> usize
    ensures { result ≡ count_by tree.is_short words.now }
{
    words.iter().filter(|word| is_short(**word)).count()
}

/// How often `long` is among the words.
fn longs(words: &[TypeWord]) -> usize
    ensures value { result ≡ count_by tree.is_long words.now }
    ensures small { result ≤ length words.now }
{
    words.iter().filter(|word| is_long(**word)).count()
}

/// Whether the word may stand in an integer type.
fn is_integer_word(word: TypeWord) -> bool
    ensures { result ≡ tree.is_integer_word word }
{
    !matches!(word, TypeWord::Void | TypeWord::Char | TypeWord::Whole)
}

/// Whether the word is `signed` or `unsigned`.
fn is_sign(word: TypeWord) -> bool
    ensures { result ≡ tree.is_sign word }
{
    matches!(word, TypeWord::Signed | TypeWord::Unsigned)
}

/// Whether the word is `int`.
fn is_int(word: TypeWord) -> bool
    ensures { result ≡ tree.is_int word }
{
    matches!(word, TypeWord::Int)
}

/// Whether the word is `short`.
fn is_short(word: TypeWord) -> bool
    ensures { result ≡ tree.is_short word }
{
    matches!(word, TypeWord::Short)
}

/// Whether the word is `long`.
fn is_long(word: TypeWord) -> bool
    ensures { result ≡ tree.is_long word }
{
    matches!(word, TypeWord::Long)
}

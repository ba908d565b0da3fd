//! Kinds of tokens, as the rules of the grammar tell them apart.

ghost use Rattle.std.specs.Prelude.{◌≡◌, ◌≢◌, true, false};
ghost use Rattle.c_grammar.specs.Kind as spec;

use base_core::{Class, Token};
use c_tree::{AssignOp, BinaryOp, StepOp, UnaryOp};

/// What a token is to the grammar (C11 6.4): a keyword or a punctuator, or the class of a token with a text of its own. A
/// name that is a type at its place is a `TypeName`.
#[derive(Clone, Copy, PartialEq, Eq)]
pub enum Kind {
    /// No token: the end of the text.
    Nothing,
    /// A token that no rule of the grammar takes.
    Foreign,
    Name,
    TypeName,
    Integer,
    Character,
    Text,
    Break,
    Case,
    Char,
    Const,
    Continue,
    Default,
    Do,
    Else,
    Enum,
    Extern,
    For,
    Goto,
    If,
    Int,
    Long,
    Return,
    Short,
    Signed,
    Sizeof,
    Static,
    Struct,
    Switch,
    Typedef,
    Unsigned,
    Void,
    Volatile,
    While,
    OpenBrace,
    CloseBrace,
    OpenParen,
    CloseParen,
    OpenBracket,
    CloseBracket,
    Semicolon,
    Comma,
    Dot,
    Arrow,
    Question,
    Colon,
    Tilde,
    Exclamation,
    BarBar,
    AmpersandAmpersand,
    Bar,
    Caret,
    Ampersand,
    EqualEqual,
    NotEqual,
    Less,
    Greater,
    LessEqual,
    GreaterEqual,
    LessLess,
    GreaterGreater,
    Plus,
    Minus,
    Star,
    Slash,
    Percent,
    Assign,
    StarAssign,
    SlashAssign,
    PercentAssign,
    PlusAssign,
    MinusAssign,
    LessLessAssign,
    GreaterGreaterAssign,
    AmpersandAssign,
    CaretAssign,
    BarAssign,
    PlusPlus,
    MinusMinus,
}

/// Whether two kinds are the same.
pub fn same_kind(a: Kind, b: Kind) -> bool
    ensures value { result ≡ spec.same_kind a b }
    ensures same { result ≡ true → a ≡ b }
    ensures other { result ≡ false → a ≢ b }
{
    a == b
}

fn keyword_kind(bytes: &[u8]) -> Kind
    ensures { result ≡ spec.keyword_kind bytes.now }
{
    match bytes.len() {
        2 => keyword_of_two(bytes),
        3 => keyword_of_three(bytes),
        4 => keyword_of_four(bytes),
        5 => keyword_of_five(bytes),
        6 => keyword_of_six(bytes),
        7 => keyword_of_seven(bytes),
        8 => keyword_of_eight(bytes),
        _ => Kind::Foreign,
    }
}

fn keyword_of_two(bytes: &[u8]) -> Kind
    ensures { result ≡ spec.among (spec.of_length 2 spec.keywords) bytes.now }
{
    match bytes {
        b"do" => Kind::Do,
        b"if" => Kind::If,
        _ => Kind::Foreign,
    }
}

fn keyword_of_three(bytes: &[u8]) -> Kind
    ensures { result ≡ spec.among (spec.of_length 3 spec.keywords) bytes.now }
{
    match bytes {
        b"for" => Kind::For,
        b"int" => Kind::Int,
        _ => Kind::Foreign,
    }
}

fn keyword_of_four(bytes: &[u8]) -> Kind
    ensures { result ≡ spec.among (spec.of_length 4 spec.keywords) bytes.now }
{
    match bytes {
        b"case" => Kind::Case,
        b"char" => Kind::Char,
        b"else" => Kind::Else,
        b"enum" => Kind::Enum,
        b"goto" => Kind::Goto,
        b"long" => Kind::Long,
        b"void" => Kind::Void,
        _ => Kind::Foreign,
    }
}

fn keyword_of_five(bytes: &[u8]) -> Kind
    ensures { result ≡ spec.among (spec.of_length 5 spec.keywords) bytes.now }
{
    match bytes {
        b"break" => Kind::Break,
        b"const" => Kind::Const,
        b"short" => Kind::Short,
        b"while" => Kind::While,
        _ => Kind::Foreign,
    }
}

fn keyword_of_six(bytes: &[u8]) -> Kind
    ensures { result ≡ spec.among (spec.of_length 6 spec.keywords) bytes.now }
{
    match bytes {
        b"extern" => Kind::Extern,
        b"return" => Kind::Return,
        b"signed" => Kind::Signed,
        b"sizeof" => Kind::Sizeof,
        b"static" => Kind::Static,
        b"struct" => Kind::Struct,
        b"switch" => Kind::Switch,
        _ => Kind::Foreign,
    }
}

fn keyword_of_seven(bytes: &[u8]) -> Kind
    ensures { result ≡ spec.among (spec.of_length 7 spec.keywords) bytes.now }
{
    match bytes {
        b"default" => Kind::Default,
        b"typedef" => Kind::Typedef,
        _ => Kind::Foreign,
    }
}

fn keyword_of_eight(bytes: &[u8]) -> Kind
    ensures { result ≡ spec.among (spec.of_length 8 spec.keywords) bytes.now }
{
    match bytes {
        b"continue" => Kind::Continue,
        b"unsigned" => Kind::Unsigned,
        b"volatile" => Kind::Volatile,
        _ => Kind::Foreign,
    }
}

fn mark_kind(bytes: &[u8]) -> Kind
    ensures { result ≡ spec.mark_kind bytes.now }
{
    match bytes.len() {
        1 => mark_of_one(bytes),
        2 => mark_of_two(bytes),
        3 => mark_of_three(bytes),
        _ => Kind::Foreign,
    }
}

fn mark_of_one(bytes: &[u8]) -> Kind
    ensures { result ≡ spec.among (spec.of_length 1 spec.marks) bytes.now }
{
    match bytes {
        b"{" => Kind::OpenBrace,
        b"}" => Kind::CloseBrace,
        b"(" => Kind::OpenParen,
        b")" => Kind::CloseParen,
        b"[" => Kind::OpenBracket,
        b"]" => Kind::CloseBracket,
        b";" => Kind::Semicolon,
        b"," => Kind::Comma,
        b"." => Kind::Dot,
        b"?" => Kind::Question,
        b":" => Kind::Colon,
        b"~" => Kind::Tilde,
        b"!" => Kind::Exclamation,
        b"|" => Kind::Bar,
        b"^" => Kind::Caret,
        b"&" => Kind::Ampersand,
        b"<" => Kind::Less,
        b">" => Kind::Greater,
        b"+" => Kind::Plus,
        b"-" => Kind::Minus,
        b"*" => Kind::Star,
        b"/" => Kind::Slash,
        b"%" => Kind::Percent,
        b"=" => Kind::Assign,
        _ => Kind::Foreign,
    }
}

fn mark_of_two(bytes: &[u8]) -> Kind
    ensures { result ≡ spec.among (spec.of_length 2 spec.marks) bytes.now }
{
    match bytes {
        b"->" => Kind::Arrow,
        b"||" => Kind::BarBar,
        b"&&" => Kind::AmpersandAmpersand,
        b"==" => Kind::EqualEqual,
        b"!=" => Kind::NotEqual,
        b"<=" => Kind::LessEqual,
        b">=" => Kind::GreaterEqual,
        b"<<" => Kind::LessLess,
        b">>" => Kind::GreaterGreater,
        b"*=" => Kind::StarAssign,
        b"/=" => Kind::SlashAssign,
        b"%=" => Kind::PercentAssign,
        b"+=" => Kind::PlusAssign,
        b"-=" => Kind::MinusAssign,
        b"&=" => Kind::AmpersandAssign,
        b"^=" => Kind::CaretAssign,
        b"|=" => Kind::BarAssign,
        b"++" => Kind::PlusPlus,
        b"--" => Kind::MinusMinus,
        _ => Kind::Foreign,
    }
}

fn mark_of_three(bytes: &[u8]) -> Kind
    ensures { result ≡ spec.among (spec.of_length 3 spec.marks) bytes.now }
{
    match bytes {
        b"<<=" => Kind::LessLessAssign,
        b">>=" => Kind::GreaterGreaterAssign,
        _ => Kind::Foreign,
    }
}

/// The kind of a token, wherever it stands: no name is a type.
pub fn kind_of(token: &Token) -> Kind
    ensures { result ≡ spec.kind_of token.now }
{
    match token.class {
        Class::Keyword => keyword_kind(token.lexeme.as_bytes()),
        Class::Name => Kind::Name,
        Class::Integer => Kind::Integer,
        Class::Character => Kind::Character,
        Class::Text => Kind::Text,
        Class::Punctuator => mark_kind(token.lexeme.as_bytes()),
    }
}

/// The operator with two operands that a token of this kind is between them (C11 6.5.5 to 6.5.14).
pub fn binary_operator(kind: Kind) -> Option<BinaryOp>
    ensures { result ≡ spec.binary_operator kind }
{
    match kind {
        Kind::BarBar => Some(BinaryOp::Or),
        Kind::AmpersandAmpersand => Some(BinaryOp::And),
        Kind::Bar => Some(BinaryOp::BitOr),
        Kind::Caret => Some(BinaryOp::BitXor),
        Kind::Ampersand => Some(BinaryOp::BitAnd),
        Kind::EqualEqual => Some(BinaryOp::Equal),
        Kind::NotEqual => Some(BinaryOp::Unequal),
        Kind::Less => Some(BinaryOp::Less),
        Kind::Greater => Some(BinaryOp::Greater),
        Kind::LessEqual => Some(BinaryOp::AtMost),
        Kind::GreaterEqual => Some(BinaryOp::AtLeast),
        Kind::LessLess => Some(BinaryOp::ShiftLeft),
        Kind::GreaterGreater => Some(BinaryOp::ShiftRight),
        Kind::Plus => Some(BinaryOp::Add),
        Kind::Minus => Some(BinaryOp::Sub),
        Kind::Star => Some(BinaryOp::Mul),
        Kind::Slash => Some(BinaryOp::Div),
        Kind::Percent => Some(BinaryOp::Rem),
        _ => None,
    }
}

/// The assignment operator that a token of this kind is (C11 6.5.16).
pub fn assignment_operator(kind: Kind) -> Option<AssignOp>
    ensures { result ≡ spec.assignment_operator kind }
{
    match kind {
        Kind::Assign => Some(AssignOp::Plain),
        Kind::StarAssign => Some(AssignOp::Mul),
        Kind::SlashAssign => Some(AssignOp::Div),
        Kind::PercentAssign => Some(AssignOp::Rem),
        Kind::PlusAssign => Some(AssignOp::Add),
        Kind::MinusAssign => Some(AssignOp::Sub),
        Kind::LessLessAssign => Some(AssignOp::ShiftLeft),
        Kind::GreaterGreaterAssign => Some(AssignOp::ShiftRight),
        Kind::AmpersandAssign => Some(AssignOp::BitAnd),
        Kind::CaretAssign => Some(AssignOp::BitXor),
        Kind::BarAssign => Some(AssignOp::BitOr),
        _ => None,
    }
}

/// The operator that a token of this kind is before its operand (C11 6.5.3.2 and 6.5.3.3).
pub fn unary_operator(kind: Kind) -> Option<UnaryOp>
    ensures { result ≡ spec.unary_operator kind }
{
    match kind {
        Kind::Ampersand => Some(UnaryOp::Address),
        Kind::Star => Some(UnaryOp::Follow),
        Kind::Plus => Some(UnaryOp::Plus),
        Kind::Minus => Some(UnaryOp::Minus),
        Kind::Tilde => Some(UnaryOp::BitNot),
        Kind::Exclamation => Some(UnaryOp::Not),
        _ => None,
    }
}

/// `++` or `--`, where a token of this kind is one (C11 6.5.2.4 and 6.5.3.1).
pub fn step_operator(kind: Kind) -> Option<StepOp>
    ensures { result ≡ spec.step_operator kind }
{
    match kind {
        Kind::PlusPlus => Some(StepOp::Up),
        Kind::MinusMinus => Some(StepOp::Down),
        _ => None,
    }
}

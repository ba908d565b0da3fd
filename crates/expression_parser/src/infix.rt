//! What an expression begins and goes on with.

ghost use Rattle.std.specs.Prelude.{◌≡◌, ◌≤◌, Some};
ghost use Rattle.c_tree.specs.ExpressionShape as shape;
ghost use Rattle.c_tree.specs.View.{view_expression};
ghost use Rattle.c_grammar.specs.Rules as rules;
ghost use Rattle.expression_parser.specs.Infixes.{goes_on_with};

use c_grammar::{
    First, Infix, Kind, assignment_operator, binary_operator, step_operator, unary_operator,
};
use c_tree::{BinaryOp, Expr, StepOp};

/// What an operand begins with whose first token is of this kind.
pub fn first_of_operand(kind: Kind) -> Option<First>
    ensures { result ≡ rules.first_of_operand kind }
{
    match kind {
        Kind::Name => Some(First::Word),
        Kind::Integer => Some(First::Number),
        Kind::Character => Some(First::Character),
        Kind::Text => Some(First::Text),
        Kind::OpenParen => Some(First::Open),
        Kind::Sizeof => Some(First::Sizeof),
        Kind::PlusPlus => Some(First::Step(StepOp::Up)),
        Kind::MinusMinus => Some(First::Step(StepOp::Down)),
        _ => unary_operator(kind).map(First::Unary),
    }
}

/// How tightly an operator binds.
pub fn op_level(op: BinaryOp) -> u8
    ensures value { result ≡ shape.op_level op }
    ensures small { result ≤ 13 }
{
    match op {
        BinaryOp::Or => 4,
        BinaryOp::And => 5,
        BinaryOp::BitOr => 6,
        BinaryOp::BitXor => 7,
        BinaryOp::BitAnd => 8,
        BinaryOp::Equal | BinaryOp::Unequal => 9,
        BinaryOp::Less | BinaryOp::Greater | BinaryOp::AtMost | BinaryOp::AtLeast => 10,
        BinaryOp::ShiftLeft | BinaryOp::ShiftRight => 11,
        BinaryOp::Add | BinaryOp::Sub => 12,
        BinaryOp::Mul | BinaryOp::Div | BinaryOp::Rem => 13,
    }
}

/// How tightly an expression binds.
#[tactic(auto, using(c_tree::proofs::ViewLemmas::view_Expr_Comma, c_tree::proofs::ViewLemmas::view_Expr_Assign, c_tree::proofs::ViewLemmas::view_Expr_Choose, c_tree::proofs::ViewLemmas::view_Expr_Binary, c_tree::proofs::ViewLemmas::view_Expr_Cast, c_tree::proofs::ViewLemmas::view_Expr_Unary, c_tree::proofs::ViewLemmas::view_Expr_Before, c_tree::proofs::ViewLemmas::view_Expr_SizeOf, c_tree::proofs::ViewLemmas::view_Expr_SizeOfType, c_tree::proofs::ViewLemmas::view_Expr_Index, c_tree::proofs::ViewLemmas::view_Expr_Call, c_tree::proofs::ViewLemmas::view_Expr_Dot, c_tree::proofs::ViewLemmas::view_Expr_Arrow, c_tree::proofs::ViewLemmas::view_Expr_After, c_tree::proofs::ViewLemmas::view_Expr_Name, c_tree::proofs::ViewLemmas::view_Expr_Integer, c_tree::proofs::ViewLemmas::view_Expr_Character, c_tree::proofs::ViewLemmas::view_Expr_Text, c_tree::proofs::ViewLemmas::view_Expr_Paren))]
pub fn level(expr: &Expr) -> u8
    ensures { result ≡ shape.level (view_expression expr.now) }
{
    match expr {
        Expr::Comma(_, _) => 1,
        Expr::Assign(_, _, _) => 2,
        Expr::Choose(_, _, _) => 3,
        Expr::Binary(op, _, _) => op_level(*op),
        Expr::Cast(_, _) => 14,
        Expr::Unary(_, _) | Expr::Before(_, _) | Expr::SizeOf(_) | Expr::SizeOfType(_) => 15,
        Expr::Index(_, _)
        | Expr::Call(_, _)
        | Expr::Dot(_, _)
        | Expr::Arrow(_, _)
        | Expr::After(_, _) => 16,
        Expr::Name(_) | Expr::Integer(_) | Expr::Character(_) | Expr::Text(_) | Expr::Paren(_) =>
            17,
    }
}

/// What an expression goes on with behind which a token of this kind stands.
fn infix_of(kind: Kind) -> Option<Infix>
    ensures { result ≡ rules.infix_of kind }
{
    match kind {
        Kind::Comma => Some(Infix::Comma),
        Kind::Question => Some(Infix::Question),
        Kind::OpenBracket => Some(Infix::Index),
        Kind::OpenParen => Some(Infix::Call),
        Kind::Dot => Some(Infix::Dot),
        Kind::Arrow => Some(Infix::Arrow),
        Kind::PlusPlus => Some(Infix::Step(StepOp::Up)),
        Kind::MinusMinus => Some(Infix::Step(StepOp::Down)),
        _ => match binary_operator(kind) {
            Some(op) => Some(Infix::Operator(op)),
            None => assignment_operator(kind).map(Infix::Assign),
        },
    }
}

/// The level of the expression that it makes.
fn own_level(sign: Infix) -> u8
    ensures { result ≡ rules.own_level (Some sign) }
{
    match sign {
        Infix::Comma => 1,
        Infix::Assign(_) => 2,
        Infix::Question => 3,
        Infix::Operator(op) => op_level(op),
        Infix::Index | Infix::Call | Infix::Dot | Infix::Arrow | Infix::Step(_) => 16,
    }
}

/// The least level of the operand before it.
fn left_level(sign: Infix) -> u8
    ensures { result ≡ rules.left_level (Some sign) }
{
    match sign {
        Infix::Comma => 1,
        Infix::Assign(_) => 15,
        Infix::Question => 4,
        Infix::Operator(op) => op_level(op),
        Infix::Index | Infix::Call | Infix::Dot | Infix::Arrow | Infix::Step(_) => 16,
    }
}

/// What an expression of at least one level goes on with, behind one of another level and before a token of this kind.
pub fn infix_behind(least: u8, kind: Kind, level: u8) -> Option<Infix>
    ensures { result ≡ goes_on_with least (rules.infix_of kind) level }
{
    let sign = infix_of(kind)?;
    if least <= own_level(sign) && left_level(sign) <= level {
        Some(sign)
    } else {
        None
    }
}

/// Whether a type begins with a token of this kind.
pub fn begins_type(kind: Kind) -> bool
    ensures { result ≡ rules.begins_type kind }
{
    match kind {
        Kind::Const
        | Kind::Volatile
        | Kind::Void
        | Kind::Char
        | Kind::Short
        | Kind::Int
        | Kind::Long
        | Kind::Signed
        | Kind::Unsigned
        | Kind::TypeName
        | Kind::Struct
        | Kind::Enum => true,
        _ => false,
    }
}

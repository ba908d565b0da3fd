//! The operators that give a value (C11 6.5.3 to 6.5.15, 6.5.17), and parentheses (6.5.1).

ghost use Rattle.std.specs.Prelude.{◌≡◌, IfOk};
ghost use Rattle.c_kinds.specs.Kind as kinds;
ghost use Rattle.c_kinds.specs.View.{view};
ghost use Rattle.c_rules.specs.Operators as rule;
ghost use Rattle.c_rules.specs.Values as values;
ghost use Rattle.c_rules.specs.Seen.{seen, seen_operand};

use crate::form::{Constant, Designates};
use crate::misfit::MisfitKind;
use crate::operand::Operand;
use crate::types::{is_condition, is_int, is_void, is_void_pointer, of_type, plain_int};
use crate::values::{is_disposition, is_null, may_stand};
use crate::verdict::Verdict;
use c_arithmetic::IntType;
use c_kinds::CType;
use c_tree::{BinaryOp, UnaryOp};
use std::alloc::{AllocError, Global};

fn int_if(holds: bool) -> Verdict
    ensures { seen result ≡ rule.int_if holds }
{
    if holds {
        Verdict::Fits(plain_int())
    } else {
        Verdict::Fails(MisfitKind::KindMismatch)
    }
}

fn address(alloc: Global, designates: Designates, kind: &CType) -> Result<Verdict, AllocError>
    ensures { IfOk result (λ v. seen v ≡ rule.address designates (view kind.now)) }
{
    match designates {
        Designates::Errno => Ok(Verdict::Fails(MisfitKind::LeftOut)),
        Designates::Object | Designates::ConstObject => {
            Ok(Verdict::Fits(CType::pointer(alloc, kind.share()?)?))
        }
        Designates::Function | Designates::LibraryFunction => Ok(Verdict::Fits(kind.share()?)),
        Designates::Nothing => Ok(Verdict::Fails(MisfitKind::NotAssignable)),
    }
}

fn followed(kind: &CType) -> Result<Verdict, AllocError>
    ensures { IfOk result (λ v. seen v ≡ rule.followed (view kind.now)) }
{
    match kind {
        CType::Ptr(to) | CType::Array(to) => match &**to {
            CType::Void => Ok(Verdict::Fails(MisfitKind::KindMismatch)),
            to => Ok(Verdict::Fits(to.share()?)),
        },
        CType::FnPtr(_, _) => Ok(Verdict::Fits(kind.share()?)),
        _ => Ok(Verdict::Fails(MisfitKind::KindMismatch)),
    }
}

fn promoted_int(kind: &CType) -> Verdict
    ensures { seen result ≡ rule.promoted_int (view kind.now) }
{
    match kind {
        CType::Int(width, signed) => {
            let of = IntType {
                width: *width,
                signed: *signed,
            };
            Verdict::Fits(of_type(of.promoted()))
        }
        _ => Verdict::Fails(MisfitKind::KindMismatch),
    }
}

fn unary_rule(
    alloc: Global,
    op: UnaryOp,
    designates: Designates,
    kind: &CType,
) -> Result<Verdict, AllocError>
    ensures { IfOk result (λ v. seen v ≡ rule.unary_rule op designates (view kind.now)) }
{
    match op {
        UnaryOp::Address => address(alloc, designates, kind),
        UnaryOp::Follow => followed(kind),
        UnaryOp::Plus | UnaryOp::Minus | UnaryOp::BitNot => Ok(promoted_int(kind)),
        UnaryOp::Not => Ok(int_if(is_condition(kind))),
    }
}

/// `& * + - ~ !` (C11 6.5.3). Err where there is not enough memory.
pub fn unary(alloc: Global, op: UnaryOp, x: &Operand) -> Result<Verdict, AllocError>
    ensures { IfOk result (λ v. seen v ≡ rule.unary op (seen_operand x.now)) }
{
    if !x.is_settled() {
        return Ok(Verdict::Waits);
    }
    match x.kind() {
        Some(kind) => unary_rule(alloc, op, x.form.designates, kind),
        None => Ok(Verdict::Waits),
    }
}

/// A parenthesised expression (C11 6.5.1p5). Err where there is not enough memory.
pub fn paren(x: &Operand) -> Result<Verdict, AllocError>
    ensures { IfOk result (λ v. seen v ≡ rule.paren (seen_operand x.now)) }
{
    if !x.is_settled() {
        return Ok(Verdict::Waits);
    }
    match x.kind() {
        Some(kind) => Ok(Verdict::Fits(kind.share()?)),
        None => Ok(Verdict::Waits),
    }
}

fn arithmetic(one: &CType, other: &CType) -> Verdict
    ensures { seen result ≡ rule.arithmetic (view one.now) (view other.now) }
{
    match (one, other) {
        (CType::Int(width, signed), CType::Int(width_too, signed_too)) => {
            let one = IntType {
                width: *width,
                signed: *signed,
            };
            let other = IntType {
                width: *width_too,
                signed: *signed_too,
            };
            Verdict::Fits(of_type(one.common(other)))
        }
        _ => Verdict::Fails(MisfitKind::KindMismatch),
    }
}

fn shifted(one: &CType, other: &CType) -> Verdict
    ensures { seen result ≡ rule.shifted (view one.now) (view other.now) }
{
    match other {
        CType::Int(_, _) => promoted_int(one),
        _ => Verdict::Fails(MisfitKind::KindMismatch),
    }
}

fn sum(one: &CType, other: &CType) -> Result<Verdict, AllocError>
    ensures { IfOk result (λ v. seen v ≡ rule.sum (kinds.decayed (view one.now)) (kinds.decayed (view other.now))) }
{
    match (one, other) {
        (CType::Ptr(to) | CType::Array(to), CType::Int(_, _))
        | (CType::Int(_, _), CType::Ptr(to) | CType::Array(to)) => {
            Ok(Verdict::Fits(CType::Ptr(to.clone()?)))
        }
        _ => Ok(arithmetic(one, other)),
    }
}

fn difference(one: &CType, other: &CType) -> Result<Verdict, AllocError>
    ensures { IfOk result (λ v. seen v ≡ rule.difference (kinds.decayed (view one.now)) (kinds.decayed (view other.now))) }
{
    match (one, other) {
        (CType::Ptr(to) | CType::Array(to), CType::Int(_, _)) => {
            Ok(Verdict::Fits(CType::Ptr(to.clone()?)))
        }
        (CType::Ptr(_) | CType::Array(_), CType::Ptr(_) | CType::Array(_)) => {
            Ok(Verdict::Fits(of_type(IntType::LONG)))
        }
        _ => Ok(arithmetic(one, other)),
    }
}

/// Whether a value may stand where this kind is due, an array as a pointer.
fn may_stand_for(constant: Constant, kind: &CType, due: &CType) -> bool
    ensures { result ≡ values.may_stand constant (view kind.now) (kinds.decayed (view due.now)) }
{
    match due {
        CType::Array(_) => matches!(kind, CType::Ptr(_) | CType::Array(_)) || is_null(constant),
        _ => may_stand(constant, kind, due),
    }
}

fn are_compatible(x: Constant, y: Constant, one: &CType, other: &CType) -> bool
    ensures { result ≡ rule.are_compatible x y (view one.now) (view other.now) }
{
    may_stand_for(x, one, other) || may_stand_for(y, other, one)
}

fn compared(x: Constant, y: Constant, one: &CType, other: &CType) -> Verdict
    ensures { seen result ≡ rule.compared x y (view one.now) (view other.now) }
{
    int_if(is_condition(one) && is_condition(other) && are_compatible(x, y, one, other))
}

fn binary_rule(
    op: BinaryOp,
    x: Constant,
    y: Constant,
    one: &CType,
    other: &CType,
) -> Result<Verdict, AllocError>
    ensures { IfOk result (λ v. seen v ≡ rule.binary_rule op x y (view one.now) (view other.now)) }
{
    match op {
        BinaryOp::Or | BinaryOp::And => Ok(int_if(is_condition(one) && is_condition(other))),
        BinaryOp::BitOr
        | BinaryOp::BitXor
        | BinaryOp::BitAnd
        | BinaryOp::Mul
        | BinaryOp::Div
        | BinaryOp::Rem => Ok(arithmetic(one, other)),
        BinaryOp::ShiftLeft | BinaryOp::ShiftRight => Ok(shifted(one, other)),
        BinaryOp::Add => sum(one, other),
        BinaryOp::Sub => difference(one, other),
        BinaryOp::Equal
        | BinaryOp::Unequal
        | BinaryOp::Less
        | BinaryOp::Greater
        | BinaryOp::AtMost
        | BinaryOp::AtLeast => Ok(compared(x, y, one, other)),
    }
}

/// The operators of two operands but for assignments (C11 6.5.5 to 6.5.14). Err where there is not enough memory.
pub fn binary(op: BinaryOp, x: &Operand, y: &Operand) -> Result<Verdict, AllocError>
    ensures { IfOk result (λ v. seen v ≡ rule.binary op (seen_operand x.now) (seen_operand y.now)) }
{
    if !(x.is_settled() && y.is_settled()) {
        return Ok(Verdict::Waits);
    }
    match (x.kind(), y.kind()) {
        (Some(one), Some(other)) => binary_rule(op, x.form.constant, y.form.constant, one, other),
        _ => Ok(Verdict::Waits),
    }
}

/// `,` (C11 6.5.17). Err where there is not enough memory.
pub fn comma(x: &Operand, y: &Operand) -> Result<Verdict, AllocError>
    ensures { IfOk result (λ v. seen v ≡ rule.comma (seen_operand x.now) (seen_operand y.now)) }
{
    if !(x.is_settled() && y.is_settled()) {
        return Ok(Verdict::Waits);
    }
    match (x.kind(), y.kind()) {
        (Some(_), Some(right)) => Ok(Verdict::Fits(right.share()?)),
        _ => Ok(Verdict::Waits),
    }
}

fn composite(x: Constant, one: &CType, other: &CType) -> Result<CType, AllocError>
    ensures { IfOk result (λ t. view t ≡ rule.composite x (kinds.decayed (view one.now)) (kinds.decayed (view other.now))) }
{
    let one = one.decayed()?;
    let other = other.decayed()?;
    if is_void_pointer(&one) {
        Ok(one)
    } else if is_void_pointer(&other) || is_null(x) || is_disposition(x) {
        Ok(other)
    } else {
        Ok(one)
    }
}

fn branches(x: Constant, y: Constant, one: &CType, other: &CType) -> Result<Verdict, AllocError>
    ensures { IfOk result (λ v. seen v ≡ rule.branches x y (view one.now) (view other.now)) }
{
    if is_int(one) && is_int(other) {
        Ok(arithmetic(one, other))
    } else if is_void(one) && is_void(other) {
        Ok(Verdict::Fits(CType::Void))
    } else if are_compatible(x, y, one, other) {
        Ok(Verdict::Fits(composite(x, one, other)?))
    } else {
        Ok(Verdict::Fails(MisfitKind::KindMismatch))
    }
}

fn choose_rule(
    x: Constant,
    y: Constant,
    first: &CType,
    one: &CType,
    other: &CType,
) -> Result<Verdict, AllocError>
    ensures { IfOk result (λ v. seen v ≡ rule.choose_rule x y (view first.now) (view one.now) (view other.now)) }
{
    if is_condition(first) {
        branches(x, y, one, other)
    } else {
        Ok(Verdict::Fails(MisfitKind::KindMismatch))
    }
}

/// `?:` (C11 6.5.15). Err where there is not enough memory.
pub fn choose(first: &Operand, x: &Operand, y: &Operand) -> Result<Verdict, AllocError>
    ensures { IfOk result (λ v. seen v ≡ rule.choose (seen_operand first.now) (seen_operand x.now) (seen_operand y.now)) }
{
    if !(first.is_settled() && x.is_settled() && y.is_settled()) {
        return Ok(Verdict::Waits);
    }
    match (first.kind(), x.kind(), y.kind()) {
        (Some(first), Some(one), Some(other)) => {
            choose_rule(x.form.constant, y.form.constant, first, one, other)
        }
        _ => Ok(Verdict::Waits),
    }
}

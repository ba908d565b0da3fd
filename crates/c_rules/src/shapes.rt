//! The forms of expressions that take their parts' kinds, or what a name stands for.

ghost use Rattle.std.specs.Prelude.{◌≡◌, option_map};
ghost use Rattle.c_kinds.specs.View.{view};
ghost use Rattle.c_rules.specs.Form as spec;
ghost use Rattle.c_rules.specs.Seen.{seen_operand};

use crate::form::{Constant, Designates, Form};
use crate::names::Denoted;
use crate::operand::Operand;
use c_builtins::BuiltIn;
use c_kinds::CType;
use c_tree::UnaryOp;

/// A name that stands for such a constant.
fn named_constant(constant: Constant) -> Form
    ensures { result ≡ spec.named_constant constant }
{
    Form {
        constant,
        designates: Designates::Nothing,
        based: true,
    }
}

fn built_in_form(built_in: BuiltIn) -> Form
    ensures { result ≡ spec.built_in_form built_in }
{
    match built_in {
        BuiltIn::Null => named_constant(Constant::Null),
        BuiltIn::Default | BuiltIn::Ignore | BuiltIn::Failure => named_constant(
            Constant::Disposition,
        ),
        BuiltIn::Initializer => named_constant(Constant::Initializer),
        BuiltIn::Errno => Form::place(Designates::Errno),
        _ => Form::place(Designates::Nothing),
    }
}

/// The form of a name.
pub fn name_form(denoted: Denoted) -> Form
    ensures { result ≡ spec.name_form denoted }
{
    match denoted {
        Denoted::Object { constant: true, .. } => Form::place(Designates::ConstObject),
        Denoted::Object { .. } => Form::place(Designates::Object),
        Denoted::Function { .. } => Form::place(Designates::Function),
        Denoted::Library => Form::place(Designates::LibraryFunction),
        Denoted::BuiltIn(built_in) => built_in_form(built_in),
        _ => Form::place(Designates::Nothing),
    }
}

fn element_of(kind: Option<&CType>, whole: Designates) -> Designates
    ensures { result ≡ spec.element_of (option_map (λ t. view t.now) kind.entry) whole }
{
    match kind {
        Some(CType::Array(_)) => whole.part(),
        _ => Designates::Object,
    }
}

fn followed_place(kind: Option<&CType>, whole: Designates) -> Designates
    ensures { result ≡ spec.followed_place (option_map (λ t. view t.now) kind.entry) whole }
{
    match kind {
        Some(CType::FnPtr(_, _)) => Designates::Nothing,
        _ => element_of(kind, whole),
    }
}

/// The form of an operator on this operand (C11 6.5.3).
pub fn unary_form(op: UnaryOp, x: &Operand) -> Form
    ensures { result ≡ spec.unary_form op (seen_operand x.now) }
{
    match op {
        UnaryOp::Follow => Form::place(followed_place(x.kind(), x.form.designates)),
        _ => Form::plain(),
    }
}

/// The form of an index into this (C11 6.5.2.1p2).
pub fn index_form(x: &Operand) -> Form
    ensures { result ≡ spec.index_form (seen_operand x.now) }
{
    Form::place(element_of(x.kind(), x.form.designates))
}

/// The form of a member by `->` of what this points to (C11 6.5.2.3p4).
pub fn arrow_form(x: &Operand) -> Form
    ensures { result ≡ spec.arrow_form (seen_operand x.now) }
{
    index_form(x).dot()
}

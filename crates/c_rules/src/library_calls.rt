//! A call of a library function, by its row of the table.

ghost use Rattle.std.specs.Prelude.{◌≡◌, ◌<◌, ◌+◌, ◌^◌, IfOk};
ghost use Rattle.c_kinds.specs.View.{view};
ghost use Rattle.c_rules.specs.Judgement as judgement;
ghost use Rattle.c_rules.specs.LibraryCalls as rule;
ghost use Rattle.c_rules.specs.Marks.{next_place};
ghost use Rattle.c_rules.specs.Seen.{seen, seen_operands};

use crate::calls::given;
use crate::form::Constant;
use crate::misfit::MisfitKind;
use crate::operand::{Operand, are_settled};
use crate::types::{handler, is_int, is_object_pointer, of_type, tm_number};
use crate::values::{is_disposition, is_null};
use crate::verdict::Verdict;
use base_core::is_among;
use c_arithmetic::IntType;
use c_kinds::{CType, Word};
use posix_table::{Param, Params, ResultKind, Row};
use std::alloc::{AllocError, Global};

/// Functions that return a pointer to void.
const VOID_NAMES: [&[u8]; 7] = [
    b"malloc", b"calloc", b"realloc", b"memchr", b"memcpy", b"memmove", b"memset",
];

/// Functions that return a pointer to a struct tm.
const TIME_NAMES: [&[u8]; 1] = [b"localtime"];

/// Functions that return a pointer to a FILE.
const STREAM_NAMES: [&[u8]; 2] = [b"fopen", b"popen"];

fn is_function_argument(may_be_null: bool, constant: Constant, has_signature: bool) -> bool
    ensures { result ≡ rule.is_function_argument may_be_null constant has_signature }
{
    has_signature || is_disposition(constant) || may_be_null && is_null(constant)
}

/// Whether an argument of this kind may stand at the mark.
fn takes(mark: Param, constant: Constant, kind: &CType) -> bool
    ensures { result ≡ rule.takes mark constant (view kind.now) }
{
    match mark {
        Param::Int => is_int(kind),
        Param::Null => is_null(constant),
        Param::HandlerFn => {
            is_function_argument(true, constant, kind.has_signature(&[Word::Int], Word::Void))
        }
        Param::ThreadFn => {
            is_function_argument(false, constant, kind.has_signature(&[Word::Ptr], Word::Ptr))
        }
        Param::ForkFn => is_function_argument(true, constant, kind.has_signature(&[], Word::Void)),
        Param::Either | Param::More => is_int(kind) || is_object_pointer(kind),
        _ => is_object_pointer(kind) || is_null(constant),
    }
}

fn takes_operand(mark: Param, x: &Operand) -> bool
    ensures { result ≡ rule.takes_operand mark x.now.form.constant (judgement.kind (seen x.now.verdict)) }
{
    match x.kind() {
        Some(kind) => takes(mark, x.form.constant, kind),
        None => true,
    }
}

/// The place of the mark for what follows an argument at this one.
fn next_place(mark: Param, place: usize) -> usize
    requires { place + 1 < 2 ^ 64 }
    ensures { result ≡ next_place mark place }
{
    match mark {
        Param::More => place,
        _ => place + 1,
    }
}

/// Whether each argument may stand at its mark.
fn take_all(marks: &Params, xs: &[Operand]) -> bool
    ensures { result ≡ rule.take_all marks.now (seen_operands xs.now) }
{
    let mut place = 0;
    for x in xs {
        match marks.at(place) {
            None => return false,
            Some(mark) => {
                if !takes_operand(mark, x) {
                    return false;
                }
                place = next_place(mark, place);
            }
        }
    }
    true
}

fn allows(most: Option<u8>, count: usize) -> bool
    ensures { result ≡ rule.allows most count }
{
    match most {
        Some(most) => count <= usize::from(most),
        None => true,
    }
}

fn pointed_to(name: &[u8]) -> CType
    ensures { view result ≡ rule.pointed_to name.now }
{
    if is_among(&VOID_NAMES, name) {
        CType::Void
    } else if is_among(&STREAM_NAMES, name) {
        CType::Kernel
    } else if is_among(&TIME_NAMES, name) {
        CType::Struct(tm_number())
    } else {
        CType::Int(8, true)
    }
}

fn result_kind(alloc: Global, of: ResultKind, name: &[u8]) -> Result<CType, AllocError>
    ensures { IfOk result (λ t. view t ≡ rule.result_kind of name.now) }
{
    match of {
        ResultKind::Int => Ok(of_type(IntType::LONG)),
        ResultKind::Nothing | ResultKind::Never => Ok(CType::Void),
        ResultKind::OldHandler => handler(alloc),
        ResultKind::First | ResultKind::Fresh | ResultKind::Own => {
            CType::pointer(alloc, pointed_to(name))
        }
    }
}

fn library_rule(alloc: Global, row: &Row, xs: &[Operand]) -> Result<Verdict, AllocError>
    ensures { IfOk result (λ v. seen v ≡ rule.library_rule row.now (seen_operands xs.now)) }
{
    if !(usize::from(row.fewest) <= xs.len() && allows(row.most, xs.len())) {
        Ok(Verdict::Fails(MisfitKind::WrongCount))
    } else if take_all(&row.parameters, xs) {
        let kind = result_kind(alloc, row.result, row.name.as_str().as_bytes())?;
        Ok(given(xs, kind))
    } else {
        Ok(Verdict::Fails(MisfitKind::KindMismatch))
    }
}

/// A call of the library function of this row, with these arguments (C11 7.1.4). Err where there is not enough memory.
pub fn library_call(alloc: Global, row: &Row, xs: &[Operand]) -> Result<Verdict, AllocError>
    ensures { IfOk result (λ v. seen v ≡ rule.library_call row.now (seen_operands xs.now)) }
{
    if are_settled(xs) {
        library_rule(alloc, row, xs)
    } else {
        Ok(Verdict::Waits)
    }
}

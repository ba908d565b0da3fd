ghost use Rattle.std.specs.Prelude.{◌≡◌, false, map, OnOk, IfOk};
ghost use Rattle.c_tree.specs.View.{view_expression, expressions_of};
ghost use Rattle.c_tree.specs.Behind.{behind_expression, behind_expressions};
ghost use Rattle.flow_form.specs.Control.{reads, used_value, kept_value, cast_source as cast_from, between, behind_callee};
ghost use Rattle.flow_form.specs.Passed.{and, past, past_last, past_arguments, past_callee, past_called};
ghost use Rattle.flow_form.specs.Positions.{enter, leave, used, ◌⟹◌};
ghost use Rattle.flow_form.specs.Typing.{typing};

use crate::edge::Source;
use crate::meaning::{Call, Meaning};
use crate::values::{is_address, is_read};
use crate::walk::{
    Walk, begin_of, enter_of, in0_of, in1_of, kept_of, leave_of, nonzero, plain_of, unused_of,
    used_of, zero,
};
use c_tree::{BinaryOp, Expr, count_expression, count_type};
use std::alloc::AllocError;

/// Passes an expression, all but the ways on from its own Leave.
#[cycle(walk)]
pub(crate) fn walk_expression(
    t: &Meaning<'_>,
    is_place: bool,
    e: &Expr,
    walk: &mut Walk,
) -> Result<(), AllocError>
    ensures number { OnOk result (walk.new.at ≡ behind_expression walk.old.at (view_expression e.now)) }
    ensures rows { OnOk result (walk.new.rows.items ≡ past (typing t.now) is_place walk.old.at (view_expression e.now) walk.old.rows.items) }
{
    let n = walk.begin()?;
    match e {
        Expr::Comma(a, b) => {
            let x = walk_part(t, begin_of(n), false, a.get(), walk)?;
            let s = unused_of(x, walk.at, is_read(t, false, x, a.get()));
            walk_last(t, s, n, false, b.get(), walk)
        }
        Expr::Assign(_, a, b) => {
            let x = walk_part(t, begin_of(n), true, a.get(), walk)?;
            let s = kept_of(n, x, walk.at, false);
            walk_last(t, s, n, false, b.get(), walk)
        }
        Expr::Index(a, b) => {
            let x = walk_part(t, begin_of(n), false, a.get(), walk)?;
            let s = kept_of(n, x, walk.at, is_read(t, false, x, a.get()));
            walk_last(t, s, n, false, b.get(), walk)
        }
        Expr::Binary(o, a, b) => {
            let x = walk_part(t, begin_of(n), false, a.get(), walk)?;
            walk_operator(*o, n, x, is_read(t, false, x, a.get()), walk)?;
            walk_end(t, n, b.get(), walk)
        }
        Expr::Choose(a, b, c) => {
            let x = walk_part(t, begin_of(n), false, a.get(), walk)?;
            let y = walk.at;
            walk_end(t, n, b.get(), walk)?;
            let z = walk.at;
            let s = used_of(n, x, y, is_read(t, false, x, a.get()));
            walk.choice(s, nonzero(x, enter_of(y)), zero(x, enter_of(z)))?;
            walk_end(t, n, c.get(), walk)
        }
        Expr::Cast(c, a) => {
            count_type(c.get(), &mut walk.at)?;
            let x = walk_part(t, begin_of(n), false, a.get(), walk)?;
            let s = cast_source(t, n, x, walk.at, is_read(t, false, x, a.get()));
            walk.to(s, leave_of(n))
        }
        Expr::Unary(o, a) => walk_last(t, begin_of(n), n, is_address(*o), a.get(), walk),
        Expr::Before(_, a) | Expr::Dot(a, _) | Expr::After(_, a) => {
            walk_last(t, begin_of(n), n, true, a.get(), walk)
        }
        Expr::Arrow(a, _) => walk_last(t, begin_of(n), n, false, a.get(), walk),
        Expr::Paren(a) => walk_last(t, begin_of(n), n, is_place, a.get(), walk),
        Expr::Call(f, xs) => {
            let call = t.call(walk.at as usize);
            let s = walk_callee(t, call, n, f.get(), walk)?;
            walk_arguments(t, s, n, xs.as_slice(), walk)?;
            walk_called(call, n, walk)
        }
        Expr::SizeOf(a) => {
            count_expression(a.get(), &mut walk.at)?;
            walk.to(begin_of(n), leave_of(n))
        }
        Expr::SizeOfType(c) => {
            count_type(c.get(), &mut walk.at)?;
            walk.to(begin_of(n), leave_of(n))
        }
        Expr::Name(_) | Expr::Integer(_) | Expr::Character(_) | Expr::Text(_) => {
            walk.to(begin_of(n), leave_of(n))
        }
    }
}

/// Goes from `s` into an expression, up to before its Leave, and answers its number.
#[cycle(walk)]
pub(crate) fn walk_part(
    t: &Meaning<'_>,
    s: Source,
    is_place: bool,
    e: &Expr,
    walk: &mut Walk,
) -> Result<u32, AllocError>
    ensures number { OnOk result (walk.new.at ≡ behind_expression walk.old.at (view_expression e.now)) }
    ensures rows { OnOk result (walk.new.rows.items ≡ past (typing t.now) is_place walk.old.at (view_expression e.now) (and walk.old.rows.items (s ⟹ enter walk.old.at))) }
    ensures was { IfOk result (λ n. n ≡ walk.old.at) }
{
    let n = walk.at;
    walk.to(s, enter_of(n))?;
    walk_expression(t, is_place, e, walk)?;
    Ok(n)
}

/// Goes from `s` into the last operand of `n`, which uses its value, and from there to the Leave of `n`.
#[cycle(walk)]
fn walk_last(
    t: &Meaning<'_>,
    s: Source,
    n: u32,
    is_place: bool,
    e: &Expr,
    walk: &mut Walk,
) -> Result<(), AllocError>
    ensures number { OnOk result (walk.new.at ≡ behind_expression walk.old.at (view_expression e.now)) }
    ensures rows { OnOk result (walk.new.rows.items ≡ past_last s n walk.old.at (used n walk.old.at (behind_expression walk.old.at (view_expression e.now)) (reads (typing t.now) is_place walk.old.at (view_expression e.now))) (λ us. past (typing t.now) is_place walk.old.at (view_expression e.now) us) walk.old.rows.items) }
{
    let x = walk_part(t, s, is_place, e, walk)?;
    let r = used_of(n, x, walk.at, is_read(t, is_place, x, e));
    walk.to(r, leave_of(n))
}

/// Passes an operand of `n` that control has entered, and goes from there to the Leave of `n`.
#[cycle(walk)]
fn walk_end(t: &Meaning<'_>, n: u32, e: &Expr, walk: &mut Walk) -> Result<(), AllocError>
    ensures number { OnOk result (walk.new.at ≡ behind_expression walk.old.at (view_expression e.now)) }
    ensures rows { OnOk result (walk.new.rows.items ≡ and (past (typing t.now) false walk.old.at (view_expression e.now) walk.old.rows.items) (used_value (typing t.now) n walk.old.at (view_expression e.now) ⟹ leave n)) }
{
    let x = walk.at;
    walk_expression(t, false, e, walk)?;
    let r = used_of(n, x, walk.at, is_read(t, false, x, e));
    walk.to(r, leave_of(n))
}

/// The Leave of the operand `a` of the cast `n`.
fn cast_source(t: &Meaning<'_>, n: u32, a: u32, past: u32, reads: bool) -> Source
    ensures { result ≡ cast_from (typing t.now) n a past reads }
{
    if t.is_void(n) {
        unused_of(a, past, reads)
    } else {
        used_of(n, a, past, reads)
    }
}

/// From the left operand `a` of the expression `n` to the right one, which is the next node.
fn walk_operator(
    o: BinaryOp,
    n: u32,
    a: u32,
    reads: bool,
    walk: &mut Walk,
) -> Result<(), AllocError>
    ensures number { OnOk result (walk.new.at ≡ walk.old.at) }
    ensures rows { OnOk result (walk.new.rows.items ≡ and walk.old.rows.items (between o n a walk.old.at reads)) }
{
    let b = enter_of(walk.at);
    match o {
        BinaryOp::And => {
            let s = used_of(n, a, walk.at, reads);
            walk.choice(s, zero(a, leave_of(n)), nonzero(a, b))
        }
        BinaryOp::Or => {
            let s = used_of(n, a, walk.at, reads);
            walk.choice(s, nonzero(a, leave_of(n)), zero(a, b))
        }
        _ => walk.to(kept_of(n, a, walk.at, reads), b),
    }
}

/// Passes the callee of the call `n`, and answers from where control goes to the arguments.
#[cycle(walk)]
fn walk_callee(
    t: &Meaning<'_>,
    c: Call,
    n: u32,
    e: &Expr,
    walk: &mut Walk,
) -> Result<Source, AllocError>
    ensures number { OnOk result (walk.new.at ≡ behind_expression walk.old.at (view_expression e.now)) }
    ensures rows { OnOk result (walk.new.rows.items ≡ past_callee c n walk.old.at (λ us. past (typing t.now) false walk.old.at (view_expression e.now) us) walk.old.rows.items) }
    ensures was { IfOk result (λ s. s ≡ behind_callee c n (kept_value (typing t.now) n walk.old.at (view_expression e.now))) }
{
    if c == Call::Value {
        let x = walk_part(t, begin_of(n), false, e, walk)?;
        Ok(kept_of(n, x, walk.at, is_read(t, false, x, e)))
    } else {
        count_expression(e, &mut walk.at)?;
        Ok(begin_of(n))
    }
}

/// From `s` through the arguments of the call `c` to its In0.
#[cycle(walk)]
fn walk_arguments(
    t: &Meaning<'_>,
    s: Source,
    c: u32,
    all: &[Expr],
    walk: &mut Walk,
) -> Result<(), AllocError>
    ensures number { OnOk result (walk.new.at ≡ behind_expressions walk.old.at (expressions_of (map view_expression all.now))) }
    ensures rows { OnOk result (walk.new.rows.items ≡ past_arguments (typing t.now) s c walk.old.at (expressions_of (map view_expression all.now)) walk.old.rows.items) }
{
    let mut from = s;
    for e in all {
        let n = walk_part(t, from, false, e, walk)?;
        from = kept_of(c, n, walk.at, is_read(t, false, n, e));
    }
    walk.to(from, in0_of(c))
}

/// The call `n` itself, behind its arguments.
fn walk_called(c: Call, n: u32, walk: &mut Walk) -> Result<(), AllocError>
    ensures number { OnOk result (walk.new.at ≡ walk.old.at) }
    ensures rows { OnOk result (walk.new.rows.items ≡ past_called c n walk.old.rows.items) }
{
    match c {
        Call::Never => walk.ends(plain_of(in0_of(n))),
        Call::Copies => {
            walk.to(plain_of(in0_of(n)), in1_of(n))?;
            walk.to(plain_of(in1_of(n)), leave_of(n))
        }
        _ => walk.to(plain_of(in0_of(n)), leave_of(n)),
    }
}

ghost use Rattle.std.specs.Prelude.{◌≡◌, option_map, OnOk};
ghost use Rattle.c_tree.specs.View.{view_expression};
ghost use Rattle.c_tree.specs.StatementView.{view_start};
ghost use Rattle.c_tree.specs.Behind.{behind_optional, behind_start};
ghost use Rattle.flow_form.specs.PassedStatements.{past_step, past_condition, past_start};
ghost use Rattle.flow_form.specs.Statements.{to_optional};
ghost use Rattle.flow_form.specs.Typing.{typing};

use crate::declarations::walk_declaration;
use crate::expressions::walk_expression;
use crate::meaning::Meaning;
use crate::values::is_read;
use crate::walk::{
    Walk, begin_of, enter_of, leave_of, nonzero, plain_of, unused_of, used_of, zero,
};
use base_core::Pos;
use c_tree::{Expr, ForStart};
use std::alloc::AllocError;

/// To `q`, or into the optional expression `n`.
pub(crate) fn to_optional_of(n: u32, e: &Option<Expr>, q: Pos) -> Pos
    ensures { result ≡ to_optional n (option_map view_expression e.now) q }
{
    match e {
        None => q,
        Some(_) => enter_of(n),
    }
}

/// Passes an optional expression whose value no node uses, and goes from there to `q`.
pub(crate) fn walk_step(
    t: &Meaning<'_>,
    e: &Option<Expr>,
    q: Pos,
    walk: &mut Walk,
) -> Result<(), AllocError>
    ensures number { OnOk result (walk.new.at ≡ behind_optional walk.old.at (option_map view_expression e.now)) }
    ensures rows { OnOk result (walk.new.rows.items ≡ past_step (typing t.now) walk.old.at (option_map view_expression e.now) q walk.old.rows.items) }
{
    match e {
        None => Ok(()),
        Some(e) => {
            let x = walk.at;
            walk_expression(t, false, e, walk)?;
            let s = unused_of(x, walk.at, is_read(t, false, x, e));
            walk.to(s, q)
        }
    }
}

/// Passes the optional condition of the loop `n`, and goes by its value to the Leave of `n` or to its body `b`.
pub(crate) fn walk_condition(
    t: &Meaning<'_>,
    n: u32,
    b: u32,
    e: &Option<Expr>,
    walk: &mut Walk,
) -> Result<(), AllocError>
    ensures number { OnOk result (walk.new.at ≡ behind_optional walk.old.at (option_map view_expression e.now)) }
    ensures rows { OnOk result (walk.new.rows.items ≡ past_condition (typing t.now) n walk.old.at b (option_map view_expression e.now) walk.old.rows.items) }
{
    match e {
        None => Ok(()),
        Some(e) => {
            let a = walk.at;
            walk_expression(t, false, e, walk)?;
            let s = used_of(n, a, walk.at, is_read(t, false, a, e));
            walk.choice(s, zero(a, leave_of(n)), nonzero(a, enter_of(b)))
        }
    }
}

/// Goes from `p` into the first part of a for, and from there to `q`.
pub(crate) fn walk_start(
    t: &Meaning<'_>,
    p: Pos,
    start: &ForStart,
    q: Pos,
    walk: &mut Walk,
) -> Result<(), AllocError>
    ensures number { OnOk result (walk.new.at ≡ behind_start walk.old.at (view_start start.now)) }
    ensures rows { OnOk result (walk.new.rows.items ≡ past_start (typing t.now) p walk.old.at (view_start start.now) q walk.old.rows.items) }
{
    let n = walk.at;
    match start {
        ForStart::Decl(d) => {
            walk.to(plain_of(p), enter_of(n))?;
            walk_declaration(t, d, walk)?;
            walk.to(plain_of(leave_of(n)), q)
        }
        ForStart::Expr(e) => {
            walk.to(plain_of(p), to_optional_of(n, e, q))?;
            walk_step(t, e, q, walk)
        }
    }
}

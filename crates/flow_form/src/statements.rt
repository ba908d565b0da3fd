ghost use Rattle.std.specs.Prelude.{◌≡◌, ◌+◌, ◌++◌, None, map, option_map, OnOk};
ghost use Rattle.c_tree.specs.Tree.{if_statement, while_statement, do_statement, for_statement, switch_statement};
ghost use Rattle.c_tree.specs.View.{view_expression};
ghost use Rattle.c_tree.specs.StatementView.{view_start, view_statement, statements_of};
ghost use Rattle.c_tree.specs.Behind.{behind_optional, behind_statement, behind_statements};
ghost use Rattle.flow_form.specs.Jumps.{around};
ghost use Rattle.flow_form.specs.Passed.{and};
ghost use Rattle.flow_form.specs.PassedStatements.{past_whole, past_result, past_statement, past_in_order};
ghost use Rattle.flow_form.specs.Statements.{from, cases, switch_edges};
ghost use Rattle.flow_form.specs.Typing.{typing};

use crate::declarations::walk_declaration;
use crate::edge::{Edge, Source};
use crate::expressions::{walk_expression, walk_part};
use crate::jumps::{Jumps, jump_of, leaving_of, or_on};
use crate::loops::{to_optional_of, walk_condition, walk_start, walk_step};
use crate::meaning::Meaning;
use crate::switches::{Switch, has_default_label, push_case, push_end};
use crate::values::is_read;
use crate::walk::{
    Walk, begin_of, enter_of, leave_of, nonzero, plain_of, unused_of, used_of, zero,
};
use base_core::Pos;
use c_tree::{Expr, ForStart, Stmt, count_expression, count_optional, count_start};
use std::alloc::AllocError;

/// Passes a statement, all but the ways on from its own Leave.
#[cycle(walk_statement)]
pub(crate) fn walk_statement(
    t: &Meaning<'_>,
    w: &Jumps<'_>,
    s: &Stmt,
    walk: &mut Walk,
) -> Result<(), AllocError>
    ensures number { OnOk result (walk.new.at ≡ behind_statement walk.old.at (view_statement s.now)) }
    ensures rows { OnOk result (walk.new.rows.items ≡ past_statement (typing t.now) (around w.now) walk.old.at (view_statement s.now) walk.old.rows.items) }
{
    match s {
        Stmt::Decl(d) => walk_declaration(t, d, walk),
        Stmt::Block(all) => {
            let n = walk.begin()?;
            walk_in_order(t, w, begin_of(n), leave_of(n), all.as_slice(), walk)
        }
        Stmt::Expr(e) => walk_whole(t, e, walk),
        Stmt::Return(e) => walk_result(t, e, walk),
        Stmt::If(e, one, None) => walk_if(t, w, one.get(), e, walk),
        Stmt::If(e, one, Some(other)) => {
            let n = walk.begin()?;
            let a = walk_part(t, begin_of(n), false, e, walk)?;
            let b = walk.at;
            let r = used_of(n, a, b, is_read(t, false, a, e));
            walk_statement(t, w, one.get(), walk)?;
            leave_statement(w, b, one.get(), leave_of(n), walk)?;
            let c = walk.at;
            walk.choice(r, nonzero(a, enter_of(b)), zero(a, enter_of(c)))?;
            walk_statement(t, w, other.get(), walk)?;
            leave_statement(w, c, other.get(), leave_of(n), walk)
        }
        Stmt::While(e, body) => walk_while(t, w, body.get(), e, walk),
        Stmt::DoWhile(body, e) => walk_do(t, w, body.get(), e, walk),
        Stmt::For(start, test, step, body) => {
            walk_for(t, w, body.get(), start, test, step, walk)
        }
        Stmt::Switch(e, body) => walk_switch(t, w, body.get(), e, walk),
        Stmt::Case(e) => {
            let n = walk.begin()?;
            count_expression(e, &mut walk.at)?;
            walk.to(begin_of(n), leave_of(n))
        }
        Stmt::Default | Stmt::Label(_) | Stmt::Break | Stmt::Continue | Stmt::Goto(_) => {
            let n = walk.begin()?;
            walk.to(begin_of(n), leave_of(n))
        }
    }
}

/// Passes an if without an else (C11 6.8.4.1).
#[cycle(walk_statement)]
fn walk_if(
    t: &Meaning<'_>,
    w: &Jumps<'_>,
    one: &Stmt,
    e: &Expr,
    walk: &mut Walk,
) -> Result<(), AllocError>
    ensures number { OnOk result (walk.new.at ≡ behind_statement walk.old.at (if_statement (view_expression e.now) (view_statement one.now))) }
    ensures rows { OnOk result (walk.new.rows.items ≡ past_statement (typing t.now) (around w.now) walk.old.at (if_statement (view_expression e.now) (view_statement one.now)) walk.old.rows.items) }
{
    let n = walk.begin()?;
    let a = walk_part(t, begin_of(n), false, e, walk)?;
    let b = walk.at;
    let r = used_of(n, a, b, is_read(t, false, a, e));
    walk.choice(r, zero(a, leave_of(n)), nonzero(a, enter_of(b)))?;
    walk_statement(t, w, one, walk)?;
    leave_statement(w, b, one, leave_of(n), walk)
}

/// Passes a while (C11 6.8.5.1).
#[cycle(walk_statement)]
fn walk_while(
    t: &Meaning<'_>,
    w: &Jumps<'_>,
    body: &Stmt,
    e: &Expr,
    walk: &mut Walk,
) -> Result<(), AllocError>
    ensures number { OnOk result (walk.new.at ≡ behind_statement walk.old.at (while_statement (view_expression e.now) (view_statement body.now))) }
    ensures rows { OnOk result (walk.new.rows.items ≡ past_statement (typing t.now) (around w.now) walk.old.at (while_statement (view_expression e.now) (view_statement body.now)) walk.old.rows.items) }
{
    let n = walk.begin()?;
    let a = walk_part(t, begin_of(n), false, e, walk)?;
    let b = walk.at;
    let r = used_of(n, a, b, is_read(t, false, a, e));
    walk.choice(r, zero(a, leave_of(n)), nonzero(a, enter_of(b)))?;
    let inside = inside_loop(w, leave_of(n), enter_of(a));
    walk_statement(t, &inside, body, walk)?;
    leave_statement(&inside, b, body, enter_of(a), walk)
}

/// Passes a do (C11 6.8.5.2); a continue leads to its condition, whose number was noted before the walk. Err also where the number that the
/// walk finds there is another one.
#[cycle(walk_statement)]
fn walk_do(
    t: &Meaning<'_>,
    w: &Jumps<'_>,
    body: &Stmt,
    e: &Expr,
    walk: &mut Walk,
) -> Result<(), AllocError>
    ensures number { OnOk result (walk.new.at ≡ behind_statement walk.old.at (do_statement (view_statement body.now) (view_expression e.now))) }
    ensures rows { OnOk result (walk.new.rows.items ≡ past_statement (typing t.now) (around w.now) walk.old.at (do_statement (view_statement body.now) (view_expression e.now)) walk.old.rows.items) }
{
    let n = walk.begin()?;
    let b = walk.at;
    let Some(a) = w.targets.condition(n) else {
        return Err(AllocError);
    };
    walk.to(begin_of(n), enter_of(b))?;
    let inside = inside_loop(w, leave_of(n), enter_of(a));
    walk_statement(t, &inside, body, walk)?;
    if walk.at != a {
        return Err(AllocError);
    }
    leave_statement(&inside, b, body, enter_of(a), walk)?;
    walk_expression(t, false, e, walk)?;
    let r = used_of(n, a, walk.at, is_read(t, false, a, e));
    walk.choice(r, zero(a, leave_of(n)), nonzero(a, enter_of(b)))
}

/// Passes a for (C11 6.8.5.3).
#[cycle(walk_statement)]
fn walk_for(
    t: &Meaning<'_>,
    w: &Jumps<'_>,
    body: &Stmt,
    start: &ForStart,
    test: &Option<Expr>,
    step: &Option<Expr>,
    walk: &mut Walk,
) -> Result<(), AllocError>
    ensures number { OnOk result (walk.new.at ≡ behind_statement walk.old.at (for_statement (view_start start.now) (option_map view_expression test.now) (option_map view_expression step.now) (view_statement body.now))) }
    ensures rows { OnOk result (walk.new.rows.items ≡ past_statement (typing t.now) (around w.now) walk.old.at (for_statement (view_start start.now) (option_map view_expression test.now) (option_map view_expression step.now) (view_statement body.now)) walk.old.rows.items) }
{
    let n = walk.begin()?;
    let mut a = walk.at;
    count_start(start, &mut a)?;
    let mut c = a;
    count_optional(test, &mut c)?;
    let mut b = c;
    count_optional(step, &mut b)?;
    let first = to_optional_of(a, test, enter_of(b));
    let again = to_optional_of(c, step, first);
    walk_start(t, enter_of(n), start, first, walk)?;
    walk_condition(t, n, b, test, walk)?;
    walk_step(t, step, first, walk)?;
    let inside = inside_loop(w, leave_of(n), again);
    walk_statement(t, &inside, body, walk)?;
    leave_statement(&inside, b, body, again, walk)
}

/// Passes a switch (C11 6.8.4.2).
#[cycle(walk_statement)]
fn walk_switch(
    t: &Meaning<'_>,
    w: &Jumps<'_>,
    body: &Stmt,
    e: &Expr,
    walk: &mut Walk,
) -> Result<(), AllocError>
    ensures number { OnOk result (walk.new.at ≡ behind_statement walk.old.at (switch_statement (view_expression e.now) (view_statement body.now))) }
    ensures rows { OnOk result (walk.new.rows.items ≡ past_statement (typing t.now) (around w.now) walk.old.at (switch_statement (view_expression e.now) (view_statement body.now)) walk.old.rows.items) }
{
    let n = walk.begin()?;
    let a = walk_part(t, begin_of(n), false, e, walk)?;
    let b = walk.at;
    let r = used_of(n, a, b, is_read(t, false, a, e));
    let inside = inside_loop(w, leave_of(n), w.again);
    let mut next = Vec::new(walk.alloc);
    let of = Switch {
        node: n,
        expression: a,
    };
    walk_cases(t, &inside, body, of, walk, &mut next)?;
    walk.to(plain_of(leave_of(b)), leave_of(n))?;
    walk.ways(r, next)
}

/// Passes the body of a switch, and appends where control goes from the switch's expression.
#[cycle(walk_statement)]
fn walk_cases(
    t: &Meaning<'_>,
    w: &Jumps<'_>,
    body: &Stmt,
    of: Switch,
    walk: &mut Walk,
    out: &mut Vec<Edge>,
) -> Result<(), AllocError>
    ensures number { OnOk result (walk.new.at ≡ behind_statement walk.old.at (view_statement body.now)) }
    ensures rows { OnOk result (walk.new.rows.items ≡ past_statement (typing t.now) (around w.now) walk.old.at (view_statement body.now) walk.old.rows.items) }
    ensures edges { OnOk result (out.new.items ≡ out.old.items ++ switch_edges (typing t.now) of.node of.expression walk.old.at (view_statement body.now)) }
{
    match body {
        Stmt::Block(all) => {
            let b = walk.begin()?;
            push_end(has_default_label(all.as_slice()), of, out)?;
            walk_labelled(
                t,
                w,
                begin_of(b),
                leave_of(b),
                all.as_slice(),
                of,
                walk,
                out,
            )
        }
        Stmt::Decl(_)
        | Stmt::Expr(_)
        | Stmt::If(_, _, None)
        | Stmt::If(_, _, Some(_))
        | Stmt::While(_, _)
        | Stmt::DoWhile(_, _)
        | Stmt::For(_, _, _, _)
        | Stmt::Switch(_, _)
        | Stmt::Case(_)
        | Stmt::Default
        | Stmt::Label(_)
        | Stmt::Break
        | Stmt::Continue
        | Stmt::Return(_)
        | Stmt::Goto(_) => walk_statement(t, w, body, walk),
    }
}

/// From `s` through the statements of a switch's block to `q`; appends the edges from the switch's expression to the labels among them.
#[cycle(walk_statement)]
fn walk_labelled(
    t: &Meaning<'_>,
    w: &Jumps<'_>,
    s: Source,
    q: Pos,
    all: &[Stmt],
    of: Switch,
    walk: &mut Walk,
    out: &mut Vec<Edge>,
) -> Result<(), AllocError>
    ensures number { OnOk result (walk.new.at ≡ behind_statements walk.old.at (statements_of (map view_statement all.now))) }
    ensures rows { OnOk result (walk.new.rows.items ≡ past_in_order (typing t.now) (around w.now) s None q walk.old.at (statements_of (map view_statement all.now)) walk.old.rows.items) }
    ensures edges { OnOk result (out.new.items ≡ out.old.items ++ cases (typing t.now) of.node of.expression walk.old.at (statements_of (map view_statement all.now))) }
{
    let mut last = s;
    let mut jump: Option<Pos> = None;
    for r in all {
        let n = walk.at;
        walk.to(last, or_on(jump, enter_of(n)))?;
        push_case(t, of, n, r, out)?;
        walk_statement(t, w, r, walk)?;
        last = leaving_of(w, n, r);
        jump = jump_of(w, r);
    }
    walk.to(last, or_on(jump, q))
}

/// The jumps in a loop or switch, whose break leads to `stop` and whose continue to `again`.
fn inside_loop<'a>(w: &Jumps<'a>, stop: Pos, again: Pos) -> Jumps<'a>
    ensures { result ≡ record { stop = stop; again = again; function = w.now.function; targets = w.now.targets } }
{
    Jumps {
        stop,
        again,
        function: w.function,
        targets: w.targets,
    }
}

/// Passes a statement that is an optional expression.
fn walk_whole(t: &Meaning<'_>, e: &Option<Expr>, walk: &mut Walk) -> Result<(), AllocError>
    ensures number { OnOk result (walk.new.at ≡ behind_optional (walk.old.at + 1) (option_map view_expression e.now)) }
    ensures rows { OnOk result (walk.new.rows.items ≡ past_whole (typing t.now) walk.old.at (option_map view_expression e.now) walk.old.rows.items) }
{
    let n = walk.begin()?;
    match e {
        None => walk.to(begin_of(n), leave_of(n)),
        Some(e) => {
            let a = walk_part(t, begin_of(n), false, e, walk)?;
            let r = unused_of(a, walk.at, is_read(t, false, a, e));
            walk.to(r, leave_of(n))
        }
    }
}

/// Passes a return with its optional operand.
fn walk_result(t: &Meaning<'_>, e: &Option<Expr>, walk: &mut Walk) -> Result<(), AllocError>
    ensures number { OnOk result (walk.new.at ≡ behind_optional (walk.old.at + 1) (option_map view_expression e.now)) }
    ensures rows { OnOk result (walk.new.rows.items ≡ past_result (typing t.now) walk.old.at (option_map view_expression e.now) walk.old.rows.items) }
{
    let n = walk.begin()?;
    match e {
        None => walk.to(begin_of(n), leave_of(n)),
        Some(e) => {
            let a = walk_part(t, begin_of(n), false, e, walk)?;
            let r = used_of(n, a, walk.at, is_read(t, false, a, e));
            walk.to(r, leave_of(n))
        }
    }
}

/// From the Leave of the statement `n` to `p`, unless it jumps.
fn leave_statement(
    w: &Jumps<'_>,
    n: u32,
    s: &Stmt,
    p: Pos,
    walk: &mut Walk,
) -> Result<(), AllocError>
    ensures number { OnOk result (walk.new.at ≡ walk.old.at) }
    ensures rows { OnOk result (walk.new.rows.items ≡ and walk.old.rows.items (from (around w.now) n (view_statement s.now) p)) }
{
    walk.to(leaving_of(w, n, s), or_on(jump_of(w, s), p))
}

/// From `s` through the statements of a block to `q`.
#[cycle(walk_statement)]
fn walk_in_order(
    t: &Meaning<'_>,
    w: &Jumps<'_>,
    s: Source,
    q: Pos,
    all: &[Stmt],
    walk: &mut Walk,
) -> Result<(), AllocError>
    ensures number { OnOk result (walk.new.at ≡ behind_statements walk.old.at (statements_of (map view_statement all.now))) }
    ensures rows { OnOk result (walk.new.rows.items ≡ past_in_order (typing t.now) (around w.now) s None q walk.old.at (statements_of (map view_statement all.now)) walk.old.rows.items) }
{
    let mut last = s;
    let mut jump: Option<Pos> = None;
    for r in all {
        let n = walk.at;
        walk.to(last, or_on(jump, enter_of(n)))?;
        walk_statement(t, w, r, walk)?;
        last = leaving_of(w, n, r);
        jump = jump_of(w, r);
    }
    walk.to(last, or_on(jump, q))
}

ghost use Rattle.std.specs.Prelude.{◌≡◌, map, OnOk};
ghost use Rattle.c_tree.specs.StatementView.{view_item, view_statement, view_function};
ghost use Rattle.c_tree.specs.Behind.{behind_statement, behind_function, behind_items};
ghost use Rattle.flow_form.specs.PassedStatements.{past_body, past_end, past_function, past_items};
ghost use Rattle.flow_form.specs.Known.{label_of};
ghost use Rattle.flow_form.specs.Statements.{labels};
ghost use Rattle.flow_form.specs.Typing.{typing};

use crate::jumps::Jumps;
use crate::meaning::Meaning;
use crate::statements::walk_statement;
use crate::targets::Targets;
use crate::walk::{Walk, begin_of, enter_of, finish_of, giving_of, leave_of, plain_of};
use c_tree::{Function, Item, Stmt, count_declaration, count_parameters, count_specifiers};
use std::alloc::AllocError;

/// The end of the function `n`.
fn walk_end(is_main: bool, n: u32, walk: &mut Walk) -> Result<(), AllocError>
    ensures number { OnOk result (walk.new.at ≡ walk.old.at) }
    ensures rows { OnOk result (walk.new.rows.items ≡ past_end is_main n walk.old.rows.items) }
{
    if is_main {
        walk.to(giving_of(n, n), finish_of(n))?;
        walk.ends(plain_of(finish_of(n)))
    } else {
        walk.ends(giving_of(n, n))
    }
}

/// Passes the body of the function `n`, in which jumps lead to these targets.
fn walk_to_targets(
    t: &Meaning<'_>,
    n: u32,
    s: &Stmt,
    targets: &Targets<'_>,
    walk: &mut Walk,
) -> Result<(), AllocError>
    requires { map label_of targets.now.labels.items ≡ labels walk.old.at (view_statement s.now) }
    ensures number { OnOk result (walk.new.at ≡ behind_statement walk.old.at (view_statement s.now)) }
    ensures rows { OnOk result (walk.new.rows.items ≡ past_body (typing t.now) n walk.old.at (view_statement s.now) walk.old.rows.items) }
{
    let b = walk.at;
    let w = Jumps {
        stop: leave_of(n),
        again: leave_of(n),
        function: n,
        targets,
    };
    walk.to(begin_of(n), enter_of(b))?;
    walk_statement(t, &w, s, walk)?;
    walk.to(plain_of(leave_of(b)), leave_of(n))?;
    walk_end(n == t.names.main, n, walk)
}

/// Passes the body of the function `n`.
fn walk_body(t: &Meaning<'_>, n: u32, s: &Stmt, walk: &mut Walk) -> Result<(), AllocError>
    ensures number { OnOk result (walk.new.at ≡ behind_statement walk.old.at (view_statement s.now)) }
    ensures rows { OnOk result (walk.new.rows.items ≡ past_body (typing t.now) n walk.old.at (view_statement s.now) walk.old.rows.items) }
{
    let targets = Targets::of_body(walk.alloc, s, walk.at)?;
    walk_to_targets(t, n, s, &targets, walk)
}

fn walk_function(t: &Meaning<'_>, f: &Function, walk: &mut Walk) -> Result<(), AllocError>
    ensures number { OnOk result (walk.new.at ≡ behind_function walk.old.at (view_function f.now)) }
    ensures rows { OnOk result (walk.new.rows.items ≡ past_function (typing t.now) walk.old.at (view_function f.now) walk.old.rows.items) }
{
    let n = walk.begin()?;
    count_specifiers(f.specs.as_slice(), &mut walk.at)?;
    count_parameters(f.params.items.as_slice(), &mut walk.at)?;
    walk_body(t, n, &f.body, walk)
}

pub(crate) fn walk_items(t: &Meaning<'_>, all: &[Item], walk: &mut Walk) -> Result<(), AllocError>
    ensures number { OnOk result (walk.new.at ≡ behind_items walk.old.at (map view_item all.now)) }
    ensures rows { OnOk result (walk.new.rows.items ≡ past_items (typing t.now) walk.old.at (map view_item all.now) walk.old.rows.items) }
{
    for item in all {
        match item {
            Item::Function(f) => walk_function(t, f, walk)?,
            Item::Decl(d) => count_declaration(d, &mut walk.at)?,
        }
    }
    Ok(())
}

ghost use Rattle.std.specs.Prelude.{◌≡◌, map, option_map, OnOk, IfOk};
ghost use Rattle.c_tree.specs.StatementView.{view_init, view_part, view_named, view_declaration, initializers_of};
ghost use Rattle.c_tree.specs.Behind.{behind_init, behind_initializers, behind_optional_init, behind_named, behind_names, behind_declaration};
ghost use Rattle.flow_form.specs.PassedStatements.{behind_value, behind_values, past_value, past_values, past_initial, behind_name, past_name, past_names, past_declaration};
ghost use Rattle.flow_form.specs.Typing.{typing};

use crate::edge::Source;
use crate::expressions::walk_part;
use crate::meaning::Meaning;
use crate::values::is_read;
use crate::walk::{Walk, begin_of, enter_of, kept_of, leave_of, unused_of};
use base_core::Pos;
use c_tree::{Decl, Init, Named, Part, count_declarator, count_named, count_specifiers};
use std::alloc::AllocError;

/// From `s` through an initialiser of the declared name `n`; answers from where control goes on.
#[cycle(walk_value)]
fn walk_value(
    t: &Meaning<'_>,
    s: Source,
    n: u32,
    i: &Init,
    walk: &mut Walk,
) -> Result<Source, AllocError>
    ensures number { OnOk result (walk.new.at ≡ behind_init walk.old.at (view_init i.now)) }
    ensures rows { OnOk result (walk.new.rows.items ≡ past_value (typing t.now) s n walk.old.at (view_init i.now) walk.old.rows.items) }
    ensures was { IfOk result (λ r. r ≡ behind_value (typing t.now) s n walk.old.at (view_init i.now)) }
{
    match i {
        Init::Expr(e) => {
            let x = walk_part(t, s, false, e, walk)?;
            Ok(kept_of(n, x, walk.at, is_read(t, false, x, e)))
        }
        Init::Parts(list) => {
            walk.begin()?;
            walk_values(t, s, n, list.parts.as_slice(), walk)
        }
    }
}

/// From `s` through the parts of a list of initialisers of the declared name `n`.
#[cycle(walk_value)]
fn walk_values(
    t: &Meaning<'_>,
    s: Source,
    n: u32,
    all: &[Part],
    walk: &mut Walk,
) -> Result<Source, AllocError>
    ensures number { OnOk result (walk.new.at ≡ behind_initializers walk.old.at (initializers_of (map view_part all.now))) }
    ensures rows { OnOk result (walk.new.rows.items ≡ past_values (typing t.now) s n walk.old.at (initializers_of (map view_part all.now)) walk.old.rows.items) }
    ensures was { IfOk result (λ r. r ≡ behind_values (typing t.now) s n walk.old.at (initializers_of (map view_part all.now))) }
{
    let mut from = s;
    for part in all {
        from = walk_value(t, from, n, &part.init, walk)?;
    }
    Ok(from)
}

/// From the Enter of the declared name `n` through its initialiser to its Leave.
fn walk_initial(
    t: &Meaning<'_>,
    n: u32,
    i: &Option<Init>,
    walk: &mut Walk,
) -> Result<(), AllocError>
    ensures number { OnOk result (walk.new.at ≡ behind_optional_init walk.old.at (option_map view_init i.now)) }
    ensures rows { OnOk result (walk.new.rows.items ≡ past_initial (typing t.now) n walk.old.at (option_map view_init i.now) walk.old.rows.items) }
{
    match i {
        None => walk.to(begin_of(n), leave_of(n)),
        Some(i) => {
            let s = walk_value(t, begin_of(n), n, i, walk)?;
            walk.to(s, leave_of(n))
        }
    }
}

/// From `s` through a declared name, if it is an automatic variable; answers from where control goes on.
fn walk_name(t: &Meaning<'_>, s: Source, d: &Named, walk: &mut Walk) -> Result<Source, AllocError>
    ensures number { OnOk result (walk.new.at ≡ behind_named walk.old.at (view_named d.now)) }
    ensures rows { OnOk result (walk.new.rows.items ≡ past_name ((typing t.now).is_automatic walk.old.at) (typing t.now) s walk.old.at (view_named d.now) walk.old.rows.items) }
    ensures was { IfOk result (λ r. r ≡ behind_name ((typing t.now).is_automatic walk.old.at) s walk.old.at (view_named d.now)) }
{
    let n = walk.at;
    if t.is_automatic(n) {
        walk.to(s, enter_of(n))?;
        walk.begin()?;
        count_declarator(&d.declarator, &mut walk.at)?;
        walk_initial(t, n, &d.init, walk)?;
        Ok(unused_of(n, walk.at, false))
    } else {
        count_named(d, &mut walk.at)?;
        Ok(s)
    }
}

/// From `s` through the declared names to `q`.
fn walk_names(
    t: &Meaning<'_>,
    s: Source,
    q: Pos,
    all: &[Named],
    walk: &mut Walk,
) -> Result<(), AllocError>
    ensures number { OnOk result (walk.new.at ≡ behind_names walk.old.at (map view_named all.now)) }
    ensures rows { OnOk result (walk.new.rows.items ≡ past_names (typing t.now) s q walk.old.at (map view_named all.now) walk.old.rows.items) }
{
    let mut from = s;
    for d in all {
        from = walk_name(t, from, d, walk)?;
    }
    walk.to(from, q)
}

/// Passes a declaration in a function, all but the ways on from its own Leave.
pub(crate) fn walk_declaration(t: &Meaning<'_>, d: &Decl, walk: &mut Walk) -> Result<(), AllocError>
    ensures number { OnOk result (walk.new.at ≡ behind_declaration walk.old.at (view_declaration d.now)) }
    ensures rows { OnOk result (walk.new.rows.items ≡ past_declaration (typing t.now) walk.old.at (view_declaration d.now) walk.old.rows.items) }
{
    let n = walk.begin()?;
    count_specifiers(d.specs.as_slice(), &mut walk.at)?;
    walk_names(t, begin_of(n), leave_of(n), d.names.as_slice(), walk)
}

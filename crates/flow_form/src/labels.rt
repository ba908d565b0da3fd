ghost use Rattle.std.specs.Prelude.{◌≡◌, ◌++◌, map, OnOk};
ghost use Rattle.c_tree.specs.StatementView.{view_statement, statements_of};
ghost use Rattle.c_tree.specs.Behind.{behind_statement, behind_statements};
ghost use Rattle.flow_form.specs.Known.{label_of};
ghost use Rattle.flow_form.specs.Statements.{labels, all_labels};

use crate::targets::{Found, Label};
use crate::walk::pass;
use c_tree::{Stmt, count_declaration, count_expression, count_optional, count_start};
use std::alloc::AllocError;
use std::collections::HashMap;

/// Notes that the condition of the do `n` has the number `a`.
fn note_condition(n: u32, a: u32, conditions: &mut HashMap<u32, u32>) -> Result<(), AllocError> {
    match conditions.insert(n, a) {
        Ok(_) => Ok(()),
        Err(_) => Err(AllocError),
    }
}

/// Appends the labels of a statement, notes the conditions of each do in it, and passes its nodes.
#[cycle(collect)]
pub(crate) fn collect_labels<'a>(
    s: &'a Stmt,
    at: &mut u32,
    out: &mut Found<'a>,
) -> Result<(), AllocError>
    ensures number { OnOk result (at.new ≡ behind_statement at.old (view_statement s.now)) }
    ensures found { OnOk result (map label_of out.new.labels.items ≡ map label_of out.old.labels.items ++ labels at.old (view_statement s.now)) }
{
    let n = *at;
    match s {
        Stmt::Decl(d) => count_declaration(d, at),
        Stmt::Block(all) => {
            pass(at)?;
            collect_all(all.as_slice(), at, out)
        }
        Stmt::Expr(e) | Stmt::Return(e) => {
            pass(at)?;
            count_optional(e, at)
        }
        Stmt::If(e, one, None) | Stmt::While(e, one) | Stmt::Switch(e, one) => {
            pass(at)?;
            count_expression(e, at)?;
            collect_labels(one.get(), at, out)
        }
        Stmt::If(e, one, Some(other)) => {
            pass(at)?;
            count_expression(e, at)?;
            collect_labels(one.get(), at, out)?;
            collect_labels(other.get(), at, out)
        }
        Stmt::Case(e) => {
            pass(at)?;
            count_expression(e, at)
        }
        Stmt::Label(m) => {
            pass(at)?;
            out.labels.push(Label {
                name: m.as_bytes(),
                node: n,
            })?;
            Ok(())
        }
        Stmt::Default | Stmt::Break | Stmt::Continue | Stmt::Goto(_) => pass(at),
        Stmt::DoWhile(body, e) => {
            pass(at)?;
            collect_labels(body.get(), at, out)?;
            note_condition(n, *at, &mut out.conditions)?;
            count_expression(e, at)
        }
        Stmt::For(start, test, step, body) => {
            pass(at)?;
            count_start(start, at)?;
            count_optional(test, at)?;
            count_optional(step, at)?;
            collect_labels(body.get(), at, out)
        }
    }
}

#[cycle(collect)]
fn collect_all<'a>(all: &'a [Stmt], at: &mut u32, out: &mut Found<'a>) -> Result<(), AllocError>
    ensures number { OnOk result (at.new ≡ behind_statements at.old (statements_of (map view_statement all.now))) }
    ensures found { OnOk result (map label_of out.new.labels.items ≡ map label_of out.old.labels.items ++ all_labels at.old (statements_of (map view_statement all.now))) }
{
    for s in all {
        collect_labels(s, at, out)?;
    }
    Ok(())
}

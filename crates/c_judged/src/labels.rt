ghost use Rattle.std.specs.Prelude.{◌≡◌, ◌++◌, map, OnOk};
ghost use Rattle.c_tree.specs.StatementView.{view_statement, statements_of};
ghost use Rattle.c_judged.specs.Statements.{labels, labels_of};

use c_grammar::Names;
use c_tree::Stmt;
use std::alloc::AllocError;

/// Adds the labels in a statement (C11 6.8.1). Err where there is not enough memory.
#[cycle(labels)]
#[tactic(auto, using(crate::proofs::Joins::labels_none, crate::proofs::Joins::labels_assoc))]
pub(crate) fn add_labels(s: &Stmt, out: &mut Names) -> Result<(), AllocError>
    ensures { OnOk result (out.new ≡ out.old ++ labels (view_statement s.now)) }
{
    match s {
        Stmt::Block(all) => add_all_labels(all.as_slice(), out),
        Stmt::If(_, s, r) => match r {
            None => add_labels(s.get(), out),
            Some(r) => {
                add_labels(s.get(), out)?;
                add_labels(r.get(), out)
            }
        },
        Stmt::While(_, s) => add_labels(s.get(), out),
        Stmt::DoWhile(s, _) => add_labels(s.get(), out),
        Stmt::For(_, _, _, s) => add_labels(s.get(), out),
        Stmt::Switch(_, s) => add_labels(s.get(), out),
        Stmt::Label(name) => out.add(name.as_bytes()),
        Stmt::Decl(_)
        | Stmt::Expr(_)
        | Stmt::Case(_)
        | Stmt::Default
        | Stmt::Break
        | Stmt::Continue
        | Stmt::Return(_)
        | Stmt::Goto(_) => Ok(()),
    }
}

#[cycle(labels)]
#[tactic(auto, using(crate::proofs::Joins::labels_none, crate::proofs::Joins::labels_assoc))]
fn add_all_labels(all: &[Stmt], out: &mut Names) -> Result<(), AllocError>
    ensures { OnOk result (out.new ≡ out.old ++ labels_of (statements_of (map view_statement all.now))) }
{
    for s in all {
        add_labels(s, out)?;
    }
    Ok(())
}

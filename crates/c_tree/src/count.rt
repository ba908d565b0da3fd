ghost use Rattle.std.specs.Prelude.{◌≡◌, List, None, map, option_map, OnOk};
ghost use Rattle.c_tree.specs.Behind.{count_node, behind_expression, behind_type, behind_specifiers, behind_declarator, behind_parameters, behind_init, behind_named, behind_declaration, behind_optional, behind_start, behind_statement};
ghost use Rattle.c_tree.specs.Nodes.{Node as NodeTree};
ghost use Rattle.c_tree.specs.Passing.{pass_all};
ghost use Rattle.c_tree.specs.Progress.{pass};
ghost use Rattle.c_tree.specs.Search.{progress};
ghost use Rattle.c_tree.specs.View.{view_expression, view_type, view_specifier, view_declarator, view_parameter, specifiers_of, parameters_of};
ghost use Rattle.c_tree.specs.StatementView.{view_init, view_named, view_declaration, view_start, view_statement};

use crate::search::Search;
use crate::tree::{
    Decl, Declarator, Expr, ForStart, Init, Named, Parameter, SpecWord, Stmt, TypeName,
};
use crate::walk::{
    search_declarator, search_expression, search_parameters, search_specifiers, search_type,
};
use crate::walk_items::{
    search_declaration, search_init, search_named, search_optional, search_start, search_statement,
};
use base_core::NodeId;
use std::alloc::AllocError;

/// A search that passes the nodes of a part of a tree.
fn start<'a>() -> Search<'a>
    ensures { progress result ≡ record { left = 4294967295; functions = 0; found = None } }
{
    Search::new(NodeId(u32::MAX))
}

/// Adds to a node's number the number of nodes that a search has passed. Err where the sum is no node's number.
fn add(search: &Search<'_>, at: &mut u32) -> Result<(), AllocError>
    ensures { OnOk result ((ns : List NodeTree) → progress search.now ≡ pass_all pass (record { left = 4294967295; functions = 0; found = None }) ns → at.new ≡ pass_all count_node at.old ns) }
{
    if search.found.is_some() {
        return Err(AllocError);
    }
    match at.checked_add(u32::MAX - search.left) {
        Some(behind) => {
            *at = behind;
            Ok(())
        }
        None => Err(AllocError),
    }
}

/// From the number of the first node of an expression to the number behind its last one. Err where that is no number of 32 bits.
pub fn count_expression(e: &Expr, at: &mut u32) -> Result<(), AllocError>
    ensures { OnOk result (at.new ≡ behind_expression at.old (view_expression e.now)) }
{
    let mut search = start();
    search_expression(e, &mut search);
    add(&search, at)?;
    Ok(())
}

/// From the number of the first node of the name of a type to the number behind its last one. Err where that is no number of 32 bits.
pub fn count_type(t: &TypeName, at: &mut u32) -> Result<(), AllocError>
    ensures { OnOk result (at.new ≡ behind_type at.old (view_type t.now)) }
{
    let mut search = start();
    search_type(t, &mut search);
    add(&search, at)?;
    Ok(())
}

/// From the number of the first node of specifiers to the number behind its last one. Err where that is no number of 32 bits.
pub fn count_specifiers(all: &[SpecWord], at: &mut u32) -> Result<(), AllocError>
    ensures { OnOk result (at.new ≡ behind_specifiers at.old (specifiers_of (map view_specifier all.now))) }
{
    let mut search = start();
    search_specifiers(all, &mut search);
    add(&search, at)?;
    Ok(())
}

/// From the number of the first node of a declarator to the number behind its last one. Err where that is no number of 32 bits.
pub fn count_declarator(d: &Declarator, at: &mut u32) -> Result<(), AllocError>
    ensures { OnOk result (at.new ≡ behind_declarator at.old (view_declarator d.now)) }
{
    let mut search = start();
    search_declarator(d, &mut search);
    add(&search, at)?;
    Ok(())
}

/// From the number of the first node of parameters to the number behind its last one. Err where that is no number of 32 bits.
pub fn count_parameters(all: &[Parameter], at: &mut u32) -> Result<(), AllocError>
    ensures { OnOk result (at.new ≡ behind_parameters at.old (parameters_of (map view_parameter all.now))) }
{
    let mut search = start();
    search_parameters(all, &mut search);
    add(&search, at)?;
    Ok(())
}

/// From the number of the first node of an initialiser to the number behind its last one. Err where that is no number of 32 bits.
pub fn count_init(i: &Init, at: &mut u32) -> Result<(), AllocError>
    ensures { OnOk result (at.new ≡ behind_init at.old (view_init i.now)) }
{
    let mut search = start();
    search_init(i, &mut search);
    add(&search, at)?;
    Ok(())
}

/// From the number of the first node of a declaration to the number behind its last one. Err where that is no number of 32 bits.
pub fn count_declaration(d: &Decl, at: &mut u32) -> Result<(), AllocError>
    ensures { OnOk result (at.new ≡ behind_declaration at.old (view_declaration d.now)) }
{
    let mut search = start();
    search_declaration(d, &mut search);
    add(&search, at)?;
    Ok(())
}

/// From the number of the first node of a statement to the number behind its last one. Err where that is no number of 32 bits.
pub fn count_statement(s: &Stmt, at: &mut u32) -> Result<(), AllocError>
    ensures { OnOk result (at.new ≡ behind_statement at.old (view_statement s.now)) }
{
    let mut search = start();
    search_statement(s, &mut search);
    add(&search, at)?;
    Ok(())
}

/// From the number of the first node of a declared name to the number behind its last one. Err where that is no number of 32 bits.
pub fn count_named(n: &Named, at: &mut u32) -> Result<(), AllocError>
    ensures { OnOk result (at.new ≡ behind_named at.old (view_named n.now)) }
{
    let mut search = start();
    search_named(n, &mut search);
    add(&search, at)?;
    Ok(())
}

/// From the number of the first node of an optional expression to the number behind its last one. Err where that is no number of 32 bits.
pub fn count_optional(e: &Option<Expr>, at: &mut u32) -> Result<(), AllocError>
    ensures { OnOk result (at.new ≡ behind_optional at.old (option_map view_expression e.now)) }
{
    let mut search = start();
    search_optional(e, &mut search);
    add(&search, at)?;
    Ok(())
}

/// From the number of the first node of the first part of a for to the number behind its last one. Err where that is no number of 32 bits.
pub fn count_start(part: &ForStart, at: &mut u32) -> Result<(), AllocError>
    ensures { OnOk result (at.new ≡ behind_start at.old (view_start part.now)) }
{
    let mut search = start();
    search_start(part, &mut search);
    add(&search, at)?;
    Ok(())
}

//! Items and programs (C11 6.9, 5.1.2.2.1).

ghost use Rattle.std.specs.Prelude.{◌≡◌, ◌<◌, length, map, option_map, IfOk, OnOk};
ghost use Rattle.c_judgements.specs.Parts.{added};
ghost use Rattle.c_kinds.specs.View.{view};
ghost use Rattle.c_tree.specs.StatementView.{view_item};
ghost use Rattle.c_environment.specs.Scopes as scopes;
ghost use Rattle.c_environment.specs.Entity.{variables_of};
ghost use Rattle.c_environment.specs.Seen.{seen_variable, seen_environment};
ghost use Rattle.c_bindings.specs.Seen.{seen_told};
ghost use Rattle.c_declared.specs.Seen.{shown};
ghost use Rattle.c_judged.specs.Program as spec;

use crate::declarations::{kind_of, walk_declaration};
use crate::functions::walk_function;
use c_bindings::{Told, first_misfit};
use c_declared::Judgements;
use c_environment::{Environment, Variable};
use c_kinds::CType;
use c_rules::{MisfitKind, main_misfit};
use c_tree::Item;
use posix_table::Table;
use std::alloc::{AllocError, Global};

/// What is said of a program.
#[derive(Drop)]
pub struct Judged {
    /// What is told of its nodes, in preorder, behind the first node, which is the program itself.
    pub all: Vec<Told>,
    /// The first node that breaks a rule, by its number in preorder, and which rule; the program itself is node 0.
    pub misfit: Option<(usize, MisfitKind)>,
    /// Its variables, in order of their numbers.
    pub variables: Vec<Variable>,
}

fn walk_item<'a>(
    alloc: Global,
    table: &Table,
    env: &mut Environment<'a>,
    i: &'a Item,
    out: &mut Judgements,
) -> Result<(), AllocError>
    requires { 0 < length (shown out.old) }
    ensures all { OnOk result (shown out.new ≡ added (spec.said_item table.now (seen_environment env.old) (view_item i.now)).all (shown out.old)) }
    ensures behind { OnOk result (seen_environment env.new ≡ scopes.behind_item (seen_environment env.old) (view_item i.now)) }
{
    match i {
        Item::Function(f) => walk_function(alloc, table, env, f, out),
        Item::Decl(d) => walk_declaration(alloc, table, env, d, out),
    }
}

/// Items, one after another. Err where there is not enough memory.
fn walk_items<'a>(
    alloc: Global,
    table: &Table,
    env: &mut Environment<'a>,
    items: &'a [Item],
    out: &mut Judgements,
) -> Result<(), AllocError>
    requires { 0 < length (shown out.old) }
    ensures all { OnOk result (shown out.new ≡ added (spec.said_items table.now (seen_environment env.old) (map view_item items.now)).all (shown out.old)) }
    ensures behind { OnOk result (seen_environment env.new ≡ scopes.behind_items (seen_environment env.old) (map view_item items.now)) }
{
    for i in items {
        walk_item(alloc, table, env, i, out)?;
    }
    Ok(())
}

/// The type of the function main, where the program defines one.
fn main_kind<'e>(env: &'e Environment) -> Option<&'e CType>
    ensures { option_map (λ t. view t.now) result ≡ spec.main_kind (seen_environment env.now) }
{
    let main = b"main".as_slice();
    match env.function_number(main) {
        None => None,
        Some(_number) => match env.linked_entity(main) {
            Some(entity) => kind_of(entity),
            None => None,
        },
    }
}

/// The first node that breaks a rule: that of main is asked once no other is broken.
#[tactic(auto, using(crate::proofs::First::below))]
fn misfit_of(all: &[Told], env: &Environment) -> Option<(usize, MisfitKind)>
    ensures { result ≡ spec.misfit_of (map seen_told all.now) (seen_environment env.now) }
{
    let count = all.len();
    match first_misfit(all) {
        // Its place is below the count.
        Some((place, misfit)) if place < count => Some((place + 1, misfit)),
        Some(_) => None,
        None => match main_misfit(main_kind(env)) {
            Some(misfit) => Some((0, misfit)),
            None => None,
        },
    }
}

/// The same of items where the names stand for this. Err where there is not enough memory.
fn judged_from<'a>(
    alloc: Global,
    table: &Table,
    env: &mut Environment<'a>,
    items: &'a [Item],
) -> Result<Judged, AllocError>
    ensures all { IfOk result (λ j. map seen_told j.all.items ≡ (spec.said_items table.now (seen_environment env.old) (map view_item items.now)).all) }
    ensures misfit { IfOk result (λ j. j.misfit ≡ spec.misfit_of (spec.said_items table.now (seen_environment env.old) (map view_item items.now)).all (scopes.behind_items (seen_environment env.old) (map view_item items.now))) }
    ensures variables { IfOk result (λ j. map seen_variable j.variables.items ≡ variables_of (scopes.behind_items (seen_environment env.old) (map view_item items.now)).entities) }
{
    let mut out = Judgements::new(alloc);
    walk_items(alloc, table, env, items, &mut out)?;
    let all = out.finish();
    let misfit = misfit_of(all.as_slice(), env);
    let variables = env.all_variables()?;
    Ok(Judged {
        all,
        misfit,
        variables,
    })
}

/// What is said of a program with these items, over this table of library functions: of each node one judgement, by the rules of names,
/// declarations, expressions and statements (C11 6.5 to 6.9), what its name stands for, and its value. Err where there is not enough memory.
pub fn judge<'a>(alloc: Global, table: &'a Table, items: &'a [Item]) -> Result<Judged, AllocError>
    ensures all { IfOk result (λ j. map seen_told j.all.items ≡ spec.program_told (map (λ row. row.name) table.now) table.now (map view_item items.now)) }
    ensures misfit { IfOk result (λ j. j.misfit ≡ spec.program_misfit (map (λ row. row.name) table.now) table.now (map view_item items.now)) }
    ensures variables { IfOk result (λ j. map seen_variable j.variables.items ≡ spec.program_variables (map (λ row. row.name) table.now) (map view_item items.now)) }
{
    let mut env = Environment::start(alloc, table, items)?;
    judged_from(alloc, table, &mut env, items)
}

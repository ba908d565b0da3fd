ghost use Rattle.std.specs.Prelude.{◌≡◌, ◌<◌, false, length, map, count_by, option_map, All, OnOk, IfOk};
ghost use Rattle.c_tree.specs.Nodes.{nodes, is_function};
ghost use Rattle.c_tree.specs.Spelling.{spell};
ghost use Rattle.c_tree.specs.View.{view_expression};
ghost use Rattle.c_tree.specs.StatementView.{view_init, view_part, view_named, view_declaration, view_start, view_statement, view_function, view_item, initializers_of, statements_of};
ghost use Rattle.node_places.specs.Past.{past_init, past_initializers, past_named, past_names, past_storage, past_declaration, past_expression, past_optional, past_for_start, past_statement, past_statements, past_function, past_items};
ghost use Rattle.node_places.specs.Starts.{starts, closes};
ghost use Rattle.node_places.specs.Walked.{walked, skip};

use crate::expressions::{
    stars_and_skip, walk_and_skip, walk_declarator, walk_expression, walk_parameters,
    walk_specifiers,
};
use crate::walk::Walk;
use c_tree::{Decl, Expr, ForStart, Function, Init, Item, Named, Part, Stmt, Storage};
use sqlite_items::Items;
use std::alloc::{AllocError, Global};

/// Where the nodes of a program stand among its tokens: `starts` has the index of each node's first token, in preorder,
/// and `closes` the index of each function's closing brace, in order of the text.
#[derive(Drop)]
pub struct NodeTokens {
    pub starts: Vec<usize>,
    pub closes: Vec<usize>,
}

/// Where the nodes of the program of these items stand among its tokens. Err where there is not enough memory, for the
/// answer or for so many tokens.
pub fn find(alloc: Global, items: &Items<Item>) -> Result<NodeTokens, AllocError>
    ensures starts { IfOk result (λ tokens. tokens.starts.items ≡ starts (map view_item items.now)) }
    ensures closes { IfOk result (λ tokens. tokens.closes.items ≡ closes (map view_item items.now)) }
    ensures each { IfOk result (λ tokens. length tokens.starts.items ≡ length (nodes (map view_item items.now))) }
    ensures functions { IfOk result (λ tokens. length tokens.closes.items ≡ count_by is_function (nodes (map view_item items.now))) }
    ensures starts_within { IfOk result (λ tokens. 0 < length items.now → All (λ k. k < length (spell (map view_item items.now))) tokens.starts.items) }
    ensures closes_within { IfOk result (λ tokens. All (λ k. k < length (spell (map view_item items.now))) tokens.closes.items) }
{
    let mut walk = Walk::new(alloc);
    walk.begin()?;
    walk_items(items.as_slice(), &mut walk)?;
    let Walk { starts, closes, .. } = walk;
    Ok(NodeTokens { starts, closes })
}

#[cycle(walk_init)]
fn walk_init(i: &Init, walk: &mut Walk) -> Result<(), AllocError>
    ensures { OnOk result (walked walk.new ≡ past_init (walked walk.old) (view_init i.now)) }
{
    match i {
        Init::Expr(e) => walk_expression(e, walk),
        Init::Parts(list) => {
            walk.begin()?;
            walk.skip(1)?;
            walk_parts(list.parts.as_slice(), walk)?;
            walk.skip_if(list.comma)?;
            walk.skip(1)
        }
    }
}

#[cycle(walk_init)]
fn walk_parts(all: &[Part], walk: &mut Walk) -> Result<(), AllocError>
    ensures { OnOk result (walked walk.new ≡ past_initializers false (walked walk.old) (initializers_of (map view_part all.now))) }
{
    let mut behind = false;
    for part in all {
        walk.skip_if(behind)?;
        match part.name {
            Some(_) => walk.skip(3)?,
            None => {}
        }
        walk_init(&part.init, walk)?;
        behind = true;
    }
    Ok(())
}

fn walk_names(all: &[Named], walk: &mut Walk) -> Result<(), AllocError>
    ensures { OnOk result (walked walk.new ≡ past_names false (walked walk.old) (map view_named all.now)) }
{
    let mut behind = false;
    for named in all {
        walk.skip_if(behind)?;
        walk_named(named, walk)?;
        behind = true;
    }
    Ok(())
}

fn walk_named(n: &Named, walk: &mut Walk) -> Result<(), AllocError>
    ensures { OnOk result (walked walk.new ≡ past_named (walked walk.old) (view_named n.now)) }
{
    walk.begin()?;
    walk_declarator(&n.declarator, walk)?;
    match &n.init {
        Some(i) => {
            walk.skip(1)?;
            walk_init(i, walk)
        }
        None => Ok(()),
    }
}

fn walk_storage(storage: Storage, walk: &mut Walk) -> Result<(), AllocError>
    ensures { OnOk result (walked walk.new ≡ past_storage storage (walked walk.old)) }
{
    match storage {
        Storage::Nothing => Ok(()),
        Storage::Static | Storage::Extern | Storage::Typedef => walk.skip(1),
    }
}

fn walk_declaration(d: &Decl, walk: &mut Walk) -> Result<(), AllocError>
    ensures { OnOk result (walked walk.new ≡ past_declaration (walked walk.old) (view_declaration d.now)) }
{
    walk.begin()?;
    walk_storage(d.storage, walk)?;
    walk_specifiers(d.specs.as_slice(), walk)?;
    walk_names(d.names.as_slice(), walk)?;
    walk.skip(1)
}

/// Passes an expression that stands there or does not, and the token behind it.
fn walk_optional(e: &Option<Expr>, walk: &mut Walk) -> Result<(), AllocError>
    ensures { OnOk result (walked walk.new ≡ skip 1 (past_optional (walked walk.old) (option_map view_expression e.now))) }
{
    match e {
        Some(e) => walk_expression(e, walk)?,
        None => {}
    }
    walk.skip(1)
}

/// Passes what a `for` does first, with the word and the bracket before it.
fn walk_for_start(start: &ForStart, walk: &mut Walk) -> Result<(), AllocError>
    ensures { OnOk result (walked walk.new ≡ past_for_start (skip 2 (walked walk.old)) (view_start start.now)) }
{
    walk.skip(2)?;
    match start {
        ForStart::Decl(d) => walk_declaration(d, walk),
        ForStart::Expr(e) => walk_optional(e, walk),
    }
}

/// Passes an expression in its brackets, with the word before them.
fn walk_test(test: &Expr, walk: &mut Walk) -> Result<(), AllocError>
    ensures { OnOk result (walked walk.new ≡ skip 1 (past_expression (skip 2 (walked walk.old)) (view_expression test.now))) }
{
    walk.skip(2)?;
    walk_and_skip(test, 1, walk)
}

#[cycle(walk_statement)]
fn walk_statement(s: &Stmt, walk: &mut Walk) -> Result<(), AllocError>
    ensures { OnOk result (walked walk.new ≡ past_statement (walked walk.old) (view_statement s.now)) }
{
    if let Stmt::Decl(d) = s {
        return walk_declaration(d, walk);
    }
    walk.begin()?;
    match s {
        Stmt::Decl(_) => Ok(()),
        Stmt::Block(all) => walk_block(all.as_slice(), walk),
        Stmt::Expr(e) => walk_optional(e, walk),
        Stmt::Return(e) => {
            walk.skip(1)?;
            walk_optional(e, walk)
        }
        Stmt::If(test, one, None) | Stmt::While(test, one) | Stmt::Switch(test, one) => {
            walk_test(test, walk)?;
            walk_statement(one.get(), walk)
        }
        Stmt::If(test, one, Some(other)) => {
            walk_test(test, walk)?;
            walk_statement(one.get(), walk)?;
            walk.skip(1)?;
            walk_statement(other.get(), walk)
        }
        Stmt::DoWhile(body, test) => {
            walk.skip(1)?;
            walk_statement(body.get(), walk)?;
            walk_test(test, walk)?;
            walk.skip(1)
        }
        Stmt::For(start, test, step, body) => {
            walk_for_start(start, walk)?;
            walk_optional(test, walk)?;
            walk_optional(step, walk)?;
            walk_statement(body.get(), walk)
        }
        Stmt::Case(e) => {
            walk.skip(1)?;
            walk_and_skip(e, 1, walk)
        }
        Stmt::Default | Stmt::Label(_) | Stmt::Break | Stmt::Continue => walk.skip(2),
        Stmt::Goto(_) => walk.skip(3),
    }
}

/// Passes statements in their braces.
#[cycle(walk_statement)]
fn walk_block(all: &[Stmt], walk: &mut Walk) -> Result<(), AllocError>
    ensures { OnOk result (walked walk.new ≡ skip 1 (past_statements (skip 1 (walked walk.old)) (statements_of (map view_statement all.now)))) }
{
    walk.skip(1)?;
    for statement in all {
        walk_statement(statement, walk)?;
    }
    walk.skip(1)
}

fn walk_function(f: &Function, walk: &mut Walk) -> Result<(), AllocError>
    ensures { OnOk result (walked walk.new ≡ past_function (walked walk.old) (view_function f.now)) }
{
    walk.begin()?;
    walk_storage(f.storage, walk)?;
    walk_specifiers(f.specs.as_slice(), walk)?;
    stars_and_skip(f.stars.as_slice(), 2, walk)?;
    walk_parameters(&f.params, walk)?;
    walk_statement(&f.body, walk)?;
    walk.close()
}

fn walk_items(all: &[Item], walk: &mut Walk) -> Result<(), AllocError>
    ensures { OnOk result (walked walk.new ≡ past_items (walked walk.old) (map view_item all.now)) }
{
    for item in all {
        match item {
            Item::Function(f) => walk_function(f, walk)?,
            Item::Decl(d) => walk_declaration(d, walk)?,
        }
    }
    Ok(())
}

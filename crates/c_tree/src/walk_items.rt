ghost use Rattle.std.specs.Prelude.{◌≡◌, map, option_map};
ghost use Rattle.c_tree.specs.Passing.{pass_init, pass_initializers, pass_names, pass_named, pass_declaration, pass_optional, pass_start, pass_statement, pass_statements, pass_function, pass_items};
ghost use Rattle.c_tree.specs.Progress.{pass};
ghost use Rattle.c_tree.specs.Search.{progress};
ghost use Rattle.c_tree.specs.View.{view_expression};
ghost use Rattle.c_tree.specs.StatementView.{view_init, view_part, view_named, view_declaration, view_start, view_statement, view_function, view_item, initializers_of, statements_of};

use crate::node::NodeRef;
use crate::search::Search;
use crate::tree::{Decl, Expr, ForStart, Function, Init, Item, Named, Part, Stmt};
use crate::walk::{search_declarator, search_expression, search_parameters, search_specifiers};

#[cycle(search_init)]
pub(crate) fn search_init<'a>(i: &'a Init, search: &mut Search<'a>)
    ensures { progress search.new ≡ pass_init pass (progress search.old) (view_init i.now) }
{
    match i {
        Init::Expr(e) => search_expression(e, search),
        Init::Parts(list) => {
            search.pass(NodeRef::Parts(list));
            search_parts(list.parts.as_slice(), search);
        }
    }
}

#[cycle(search_init)]
fn search_parts<'a>(all: &'a [Part], search: &mut Search<'a>)
    ensures { progress search.new ≡ pass_initializers pass (progress search.old) (initializers_of (map view_part all.now)) }
{
    for part in all {
        search_init(&part.init, search);
    }
}

fn search_names<'a>(all: &'a [Named], search: &mut Search<'a>)
    ensures { progress search.new ≡ pass_names pass (progress search.old) (map view_named all.now) }
{
    for named in all {
        search_named(named, search);
    }
}

pub(crate) fn search_named<'a>(n: &'a Named, search: &mut Search<'a>)
    ensures { progress search.new ≡ pass_named pass (progress search.old) (view_named n.now) }
{
    search.pass(NodeRef::Named(n));
    search_declarator(&n.declarator, search);
    match &n.init {
        Some(i) => search_init(i, search),
        None => {}
    }
}

pub(crate) fn search_declaration<'a>(d: &'a Decl, search: &mut Search<'a>)
    ensures { progress search.new ≡ pass_declaration pass (progress search.old) (view_declaration d.now) }
{
    search.pass(NodeRef::Decl(d));
    search_specifiers(d.specs.as_slice(), search);
    search_names(d.names.as_slice(), search);
}

pub(crate) fn search_optional<'a>(e: &'a Option<Expr>, search: &mut Search<'a>)
    ensures { progress search.new ≡ pass_optional pass (progress search.old) (option_map view_expression e.now) }
{
    match e {
        Some(e) => search_expression(e, search),
        None => {}
    }
}

pub(crate) fn search_start<'a>(start: &'a ForStart, search: &mut Search<'a>)
    ensures { progress search.new ≡ pass_start pass (progress search.old) (view_start start.now) }
{
    match start {
        ForStart::Decl(d) => search_declaration(d, search),
        ForStart::Expr(e) => search_optional(e, search),
    }
}

#[cycle(search_statement)]
pub(crate) fn search_statement<'a>(s: &'a Stmt, search: &mut Search<'a>)
    ensures { progress search.new ≡ pass_statement pass (progress search.old) (view_statement s.now) }
{
    match s {
        Stmt::Decl(d) => search_declaration(d, search),
        Stmt::Block(all) => {
            search.pass(NodeRef::Stmt(s));
            search_statements(all.as_slice(), search);
        }
        Stmt::Expr(e) | Stmt::Return(e) => {
            search.pass(NodeRef::Stmt(s));
            search_optional(e, search);
        }
        Stmt::If(test, one, None) | Stmt::While(test, one) | Stmt::Switch(test, one) => {
            search.pass(NodeRef::Stmt(s));
            search_expression(test, search);
            search_statement(one.get(), search);
        }
        Stmt::If(test, one, Some(other)) => {
            search.pass(NodeRef::Stmt(s));
            search_expression(test, search);
            search_statement(one.get(), search);
            search_statement(other.get(), search);
        }
        Stmt::DoWhile(body, test) => {
            search.pass(NodeRef::Stmt(s));
            search_statement(body.get(), search);
            search_expression(test, search);
        }
        Stmt::For(start, test, step, body) => {
            search.pass(NodeRef::Stmt(s));
            search_start(start, search);
            search_optional(test, search);
            search_optional(step, search);
            search_statement(body.get(), search);
        }
        Stmt::Case(e) => {
            search.pass(NodeRef::Stmt(s));
            search_expression(e, search);
        }
        Stmt::Default | Stmt::Label(_) | Stmt::Break | Stmt::Continue | Stmt::Goto(_) => {
            search.pass(NodeRef::Stmt(s))
        }
    }
}

#[cycle(search_statement)]
fn search_statements<'a>(all: &'a [Stmt], search: &mut Search<'a>)
    ensures { progress search.new ≡ pass_statements pass (progress search.old) (statements_of (map view_statement all.now)) }
{
    for statement in all {
        if search.found.is_some() {
            return;
        }
        search_statement(statement, search);
    }
}

fn search_function<'a>(f: &'a Function, search: &mut Search<'a>)
    ensures { progress search.new ≡ pass_function pass (progress search.old) (view_function f.now) }
{
    search.pass(NodeRef::Function(f));
    search_specifiers(f.specs.as_slice(), search);
    search_parameters(f.params.items.as_slice(), search);
    search_statement(&f.body, search);
}

pub(crate) fn search_items<'a>(all: &'a [Item], search: &mut Search<'a>)
    ensures { progress search.new ≡ pass_items pass (progress search.old) (map view_item all.now) }
{
    for item in all {
        if search.found.is_some() {
            return;
        }
        match item {
            Item::Function(f) => search_function(f, search),
            Item::Decl(d) => search_declaration(d, search),
        }
    }
}

ghost use Rattle.std.specs.Prelude.{◌≡◌, None, map, option_map};
ghost use Rattle.c_tree.specs.Passing.{pass_expression, pass_expressions, pass_sizes, pass_type, pass_specifiers, pass_members, pass_declarators, pass_enumerators, pass_declarator, pass_parameters, pass_bare};
ghost use Rattle.c_tree.specs.Progress.{pass};
ghost use Rattle.c_tree.specs.Search.{progress, seen};
ghost use Rattle.c_tree.specs.View.{view_expression, view_type, view_specifier, view_declarator, view_bare, view_member, view_enumerator, view_parameter, view_parameters, expressions_of, sizes_of, specifiers_of, members_of, declarators_of, enumerators_of, parameters_of};

use crate::node::NodeRef;
use crate::search::Search;
use crate::tree::{
    Bare, Declarator, Enumerator, Expr, Member, ParamForm, Parameter, SpecWord, TypeName,
};
use base_core::NodeId;

impl<'a> Search<'a> {
    /// A search for the node of this number.
    pub(crate) fn new(n: NodeId) -> Self
        ensures { progress result ≡ record { left = n.0; functions = 0; found = None } }
    {
        Search {
            left: n.0,
            functions: 0,
            found: None,
        }
    }

    /// Passes a node.
    #[tactic(auto, unfolding(crate::specs::Progress::pass))]
    pub(crate) fn pass(&mut self, node: NodeRef<'a>)
        ensures { progress self.new ≡ pass (progress self.old) (seen node.entry) }
    {
        if self.found.is_none() {
            if self.left == 0 {
                self.found = Some(node);
            } else {
                self.left -= 1;
                if let NodeRef::Function(_) = node {
                    self.functions += 1;
                }
            }
        }
    }
}

#[cycle(search)]
pub(crate) fn search_expression<'a>(e: &'a Expr, search: &mut Search<'a>)
    ensures { progress search.new ≡ pass_expression pass (progress search.old) (view_expression e.now) }
{
    search.pass(NodeRef::Expr(e));
    match e {
        Expr::Comma(a, b) | Expr::Assign(_, a, b) | Expr::Binary(_, a, b) | Expr::Index(a, b) => {
            search_expression(a.get(), search);
            search_expression(b.get(), search);
        }
        Expr::Choose(a, b, c) => {
            search_expression(a.get(), search);
            search_expression(b.get(), search);
            search_expression(c.get(), search);
        }
        Expr::Cast(t, a) => {
            search_type(t.get(), search);
            search_expression(a.get(), search);
        }
        Expr::Call(f, arguments) => {
            search_expression(f.get(), search);
            search_expressions(arguments.as_slice(), search);
        }
        Expr::SizeOfType(t) => search_type(t.get(), search),
        Expr::Unary(_, a)
        | Expr::Before(_, a)
        | Expr::SizeOf(a)
        | Expr::Dot(a, _)
        | Expr::Arrow(a, _)
        | Expr::After(_, a)
        | Expr::Paren(a) => search_expression(a.get(), search),
        Expr::Name(_) | Expr::Integer(_) | Expr::Character(_) | Expr::Text(_) => {}
    }
}

#[cycle(search)]
fn search_expressions<'a>(all: &'a [Expr], search: &mut Search<'a>)
    ensures { progress search.new ≡ pass_expressions pass (progress search.old) (expressions_of (map view_expression all.now)) }
{
    for e in all {
        search_expression(e, search);
    }
}

#[cycle(search)]
fn search_sizes<'a>(all: &'a [Option<Expr>], search: &mut Search<'a>)
    ensures { progress search.new ≡ pass_sizes pass (progress search.old) (sizes_of (map (option_map view_expression) all.now)) }
{
    for size in all {
        match size {
            Some(e) => search_expression(e, search),
            None => {}
        }
    }
}

#[cycle(search)]
pub(crate) fn search_type<'a>(t: &'a TypeName, search: &mut Search<'a>)
    ensures { progress search.new ≡ pass_type pass (progress search.old) (view_type t.now) }
{
    search_specifiers(t.specs.as_slice(), search);
    search_bare(&t.bare, search);
}

#[cycle(search)]
pub(crate) fn search_specifiers<'a>(all: &'a [SpecWord], search: &mut Search<'a>)
    ensures { progress search.new ≡ pass_specifiers pass (progress search.old) (specifiers_of (map view_specifier all.now)) }
{
    for word in all {
        match word {
            SpecWord::Struct(_, members) => search_members(members.as_slice(), search),
            SpecWord::Enum(_, enumerators, _) => search_enumerators(enumerators.as_slice(), search),
            _ => {}
        }
    }
}

#[cycle(search)]
fn search_members<'a>(all: &'a [Member], search: &mut Search<'a>)
    ensures { progress search.new ≡ pass_members pass (progress search.old) (members_of (map view_member all.now)) }
{
    for member in all {
        search_specifiers(member.specs.as_slice(), search);
        search_declarators(member.names.as_slice(), search);
    }
}

#[cycle(search)]
fn search_declarators<'a>(all: &'a [Declarator], search: &mut Search<'a>)
    ensures { progress search.new ≡ pass_declarators pass (progress search.old) (declarators_of (map view_declarator all.now)) }
{
    for declarator in all {
        search.pass(NodeRef::Member(declarator));
        search_declarator(declarator, search);
    }
}

#[cycle(search)]
fn search_enumerators<'a>(all: &'a [Enumerator], search: &mut Search<'a>)
    ensures { progress search.new ≡ pass_enumerators pass (progress search.old) (enumerators_of (map view_enumerator all.now)) }
{
    for enumerator in all {
        search.pass(NodeRef::Enumerator(enumerator));
        match &enumerator.value {
            Some(e) => search_expression(e, search),
            None => {}
        }
    }
}

#[cycle(search)]
pub(crate) fn search_declarator<'a>(d: &'a Declarator, search: &mut Search<'a>)
    ensures { progress search.new ≡ pass_declarator pass (progress search.old) (view_declarator d.now) }
{
    match d {
        Declarator::Plain(_, _) => {}
        Declarator::Array(_, _, sizes) => search_sizes(sizes.as_slice(), search),
        Declarator::Function(_, _, params) => search_parameters(params.items.as_slice(), search),
        Declarator::Pointer(_, _, _, sizes, params) => {
            search_sizes(sizes.as_slice(), search);
            search_parameters(params.items.as_slice(), search);
        }
    }
}

#[cycle(search)]
pub(crate) fn search_parameters<'a>(all: &'a [Parameter], search: &mut Search<'a>)
    ensures { progress search.new ≡ pass_parameters pass (progress search.old) (parameters_of (map view_parameter all.now)) }
{
    for parameter in all {
        match &parameter.form {
            ParamForm::Named(declarator) => {
                search.pass(NodeRef::Parameter(parameter));
                search_specifiers(parameter.specs.as_slice(), search);
                search_declarator(declarator, search);
            }
            ParamForm::Bare(bare) => {
                search_specifiers(parameter.specs.as_slice(), search);
                search_bare(bare, search);
            }
        }
    }
}

#[cycle(search)]
fn search_bare<'a>(b: &'a Bare, search: &mut Search<'a>)
    ensures { progress search.new ≡ pass_bare pass (progress search.old) (view_bare b.now) }
{
    match b {
        Bare::Plain(_) => {}
        Bare::Pointer(_, _, params) => search_parameters(params.items.as_slice(), search),
    }
}

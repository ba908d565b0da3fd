//! The rules for what nests take the reader of that as a parameter, so that each is proved by itself.

ghost use Rattle.std.specs.Prelude.{◌≡◌, ◌≤◌, map};
ghost use Rattle.c_tree.specs.View.{view_expression, view_type, view_member, view_parameters, members_of};
ghost use Rattle.c_grammar.specs.Reading.{read};
ghost use Rattle.c_grammar.specs.Rules.{an_expression, a_type, all_members, all_parameters};
ghost use Rattle.c_grammar.specs.Gives.{Gives};
ghost use Rattle.expression_parser.specs.Nests.{Nests};

use c_grammar::{Cursor, NameEnvironment, Refusal};
use c_tree::{Expr, Member, Params, TypeName};
use sqlite_items::{Boxed, Items};
use std::alloc::Global;

/// What may hold others of its kind.
#[derive(Clone, Copy)]
pub enum Nested {
    /// An expression of at least this level, whose first token makes so many nodes necessary besides its own.
    Expression { least: u8, owed: u32 },
    TypeName,
    Members,
    Parameters,
}

#[derive(Drop)]
pub enum Found {
    Expression(Boxed<Expr>),
    TypeName(Boxed<TypeName>),
    Members(Items<Member>),
    Parameters(Params),
}

#[derive(Drop)]
pub struct Grammar<'a, F> {
    pub alloc: Global,
    /// The names that are types, and those that are reserved.
    pub types: &'a NameEnvironment<'a>,
    /// How often what nests may still nest.
    pub budget: usize,
    pub read: F,
}

impl<
    F: Fn(
        Global,
        &NameEnvironment<'_>,
        &mut Cursor<'_>,
        usize,
        u32,
        Nested,
    ) -> Result<Found, Refusal>,
> Grammar<'_, F> {
    /// An expression of at least this level.
    pub fn expression(
        &self,
        cursor: &mut Cursor<'_>,
        d: u32,
        least: u8,
        owed: u32,
    ) -> Result<Boxed<Expr>, Refusal>
        requires nests { Nests self.now.budget (F.pre self.now.read) (F.post self.now.read) }
        requires small { d ≤ 1001 }
        requires few { owed ≤ 1000 }
        ensures { Gives view_expression (read (an_expression self.now.types.now d least owed) cursor.old) result cursor.new }
    {
        match (self.read)(
            self.alloc,
            self.types,
            cursor,
            self.budget,
            d,
            Nested::Expression { least, owed },
        )? {
            Found::Expression(found) => Ok(found),
            _ => Err(Refusal::NoMemory),
        }
    }

    /// The name of a type.
    pub fn type_name(&self, cursor: &mut Cursor<'_>, d: u32) -> Result<Boxed<TypeName>, Refusal>
        requires nests { Nests self.now.budget (F.pre self.now.read) (F.post self.now.read) }
        requires small { d ≤ 1001 }
        ensures { Gives view_type (read (a_type self.now.types.now d) cursor.old) result cursor.new }
    {
        match (self.read)(
            self.alloc,
            self.types,
            cursor,
            self.budget,
            d,
            Nested::TypeName,
        )? {
            Found::TypeName(found) => Ok(found),
            _ => Err(Refusal::NoMemory),
        }
    }

    /// The members of a struct, with the closing brace.
    pub fn members(&self, cursor: &mut Cursor<'_>, d: u32) -> Result<Items<Member>, Refusal>
        requires nests { Nests self.now.budget (F.pre self.now.read) (F.post self.now.read) }
        requires small { d ≤ 1001 }
        ensures { Gives (λ ms. members_of (map view_member ms)) (read (all_members self.now.types.now d) cursor.old) result cursor.new }
    {
        match (self.read)(
            self.alloc,
            self.types,
            cursor,
            self.budget,
            d,
            Nested::Members,
        )? {
            Found::Members(found) => Ok(found),
            _ => Err(Refusal::NoMemory),
        }
    }

    /// The parameters of a function, with the closing bracket.
    pub fn parameters(&self, cursor: &mut Cursor<'_>, d: u32) -> Result<Params, Refusal>
        requires nests { Nests self.now.budget (F.pre self.now.read) (F.post self.now.read) }
        requires small { d ≤ 1001 }
        ensures { Gives view_parameters (read (all_parameters self.now.types.now d) cursor.old) result cursor.new }
    {
        match (self.read)(
            self.alloc,
            self.types,
            cursor,
            self.budget,
            d,
            Nested::Parameters,
        )? {
            Found::Parameters(found) => Ok(found),
            _ => Err(Refusal::NoMemory),
        }
    }
}

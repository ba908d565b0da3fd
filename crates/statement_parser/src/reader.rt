//! The rules for statements take the reader of the statements in them as a parameter, so that each is proved by itself.

ghost use Rattle.std.specs.Prelude.{◌≡◌, ◌≤◌, map};
ghost use Rattle.c_tree.specs.StatementView.{view_statement, statements_of};
ghost use Rattle.c_grammar.specs.Reading.{read};
ghost use Rattle.c_grammar.specs.Rules.{a_statement, all_statements};
ghost use Rattle.c_grammar.specs.Gives.{Gives};
ghost use Rattle.statement_parser.specs.Nests.{Nests};

use crate::context::Context;
use c_grammar::{Cursor, NameEnvironment, Refusal};
use c_tree::Stmt;
use sqlite_items::{Boxed, Items};
use std::alloc::Global;

/// What may hold others of its kind.
#[derive(Clone, Copy)]
pub enum Nested {
    /// A statement, whose first token makes so many nodes necessary besides its own.
    Statement { context: Context, owed: u32 },
    /// The statements of a block, with the closing brace.
    Block { context: Context },
}

#[derive(Drop)]
pub enum Found {
    Statement(Boxed<Stmt>),
    Block(Items<Stmt>),
}

#[derive(Drop)]
pub struct Statements<'a, F> {
    pub alloc: Global,
    /// The names that are types.
    pub types: &'a NameEnvironment<'a>,
    /// How often statements may still nest.
    pub budget: usize,
    pub read: F,
}

impl<
    F: Fn(
        Global,
        &NameEnvironment<'_>,
        &mut Cursor<'_>,
        usize,
        u32,
        Nested,
    ) -> Result<Found, Refusal>,
> Statements<'_, F> {
    /// A statement, whose first token makes so many nodes necessary besides its own.
    pub fn statement(
        &self,
        cursor: &mut Cursor<'_>,
        d: u32,
        context: Context,
        owed: u32,
    ) -> Result<Boxed<Stmt>, Refusal>
        requires nests { Nests self.now.budget (F.pre self.now.read) (F.post self.now.read) }
        requires small { d ≤ 1000 }
        requires few { owed ≤ 999 }
        ensures { Gives view_statement (read (a_statement self.now.types.now d context owed) cursor.old) result cursor.new }
    {
        match (self.read)(
            self.alloc,
            self.types,
            cursor,
            self.budget,
            d,
            Nested::Statement { context, owed },
        )? {
            Found::Statement(found) => Ok(found),
            // What was asked for is found, so this never comes.
            _ => Err(Refusal::NoMemory),
        }
    }

    /// The statements of a block, with the closing brace.
    pub fn block(
        &self,
        cursor: &mut Cursor<'_>,
        d: u32,
        context: Context,
    ) -> Result<Items<Stmt>, Refusal>
        requires nests { Nests self.now.budget (F.pre self.now.read) (F.post self.now.read) }
        requires small { d ≤ 1000 }
        ensures { Gives (λ ss. statements_of (map view_statement ss)) (read (all_statements self.now.types.now d context) cursor.old) result cursor.new }
    {
        match (self.read)(
            self.alloc,
            self.types,
            cursor,
            self.budget,
            d,
            Nested::Block { context },
        )? {
            Found::Block(found) => Ok(found),
            // What was asked for is found, so this never comes.
            _ => Err(Refusal::NoMemory),
        }
    }
}

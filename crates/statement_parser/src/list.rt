//! The statements of a block.

ghost use Rattle.std.specs.Prelude.{◌≡◌, ◌≤◌, map};
ghost use Rattle.c_tree.specs.StatementView.{view_statement, statements_of};
ghost use Rattle.c_grammar.specs.Performing.{perform};
ghost use Rattle.c_grammar.specs.Reading.{read};
ghost use Rattle.c_grammar.specs.Rules.{all_statements};
ghost use Rattle.c_grammar.specs.Gives.{Gives};
ghost use Rattle.statement_parser.specs.Nests.{Nests};
ghost use Rattle.statement_parser.specs.Parts.{one_statement};

use crate::context::Context;
use crate::reader::{Found, Nested, Statements};
use c_grammar::steps::{kind, refused};
use c_grammar::{Cursor, Kind, NameEnvironment, Refusal, same_kind};
use c_tree::Stmt;
use sqlite_items::{Boxed, Items};
use std::alloc::Global;

impl<
    F: Fn(
        Global,
        &NameEnvironment<'_>,
        &mut Cursor<'_>,
        usize,
        u32,
        Nested,
    ) -> Result<Found, Refusal>,
> Statements<'_, F> {
    /// One statement of a block. It takes a token at least, so that the second refusal never comes.
    fn one(&self, cursor: &mut Cursor<'_>, d: u32, context: Context) -> Result<Boxed<Stmt>, Refusal>
        requires nests { Nests self.now.budget (F.pre self.now.read) (F.post self.now.read) }
        requires small { d ≤ 1000 }
        ensures { Gives view_statement (perform (one_statement self.now.types.now d context) cursor.old) result cursor.new }
    {
        let before = cursor.left();
        let found = self.statement(cursor, d, context, 1)?;
        if cursor.left() >= before {
            return Err(refused(cursor));
        }
        Ok(found)
    }

    /// The statements of a block, with the closing brace.
    pub fn all(
        &self,
        cursor: &mut Cursor<'_>,
        d: u32,
        context: Context,
    ) -> Result<Items<Stmt>, Refusal>
        requires nests { Nests self.now.budget (F.pre self.now.read) (F.post self.now.read) }
        requires small { d ≤ 1000 }
        ensures { Gives (λ ss. statements_of (map view_statement ss)) (read (all_statements self.now.types.now d context) cursor.old) result cursor.new }
    {
        let mut found = Items::new(self.alloc);
        while !same_kind(kind(self.types, cursor), Kind::CloseBrace) {
            let next = self.one(cursor, d, context)?;
            found.push(next.into_inner())?;
        }
        cursor.take();
        Ok(found)
    }
}

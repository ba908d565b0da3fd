//! Statements, by what they begin with.

ghost use Rattle.std.specs.Prelude.{◌≡◌, ◌≤◌};
ghost use Rattle.c_tree.specs.StatementView.{view_statement};
ghost use Rattle.c_grammar.specs.Performing.{perform};
ghost use Rattle.c_grammar.specs.Reading.{read};
ghost use Rattle.c_grammar.specs.Rules.{a_statement, statement_by};
ghost use Rattle.c_grammar.specs.Gives.{Gives};
ghost use Rattle.statement_parser.specs.Nests.{Nests};
ghost use Rattle.statement_parser.specs.Parts.{plain_by, simple_by};

use crate::context::Context;
use crate::optional::begins_declaration;
use crate::reader::{Found, Nested, Statements};
use crate::simple;
use c_grammar::steps::kind;
use c_grammar::{Cursor, Kind, NameEnvironment, Refusal};
use c_tree::Stmt;
use sqlite_items::Boxed;
use std::alloc::Global;

/// A statement that no keyword begins, at a token of this kind.
fn plain_statement(
    alloc: Global,
    types: &NameEnvironment<'_>,
    cursor: &mut Cursor<'_>,
    d: u32,
    context: Context,
    owed: u32,
    kind: Kind,
) -> Result<Boxed<Stmt>, Refusal>
    requires small { d ≤ 1000 }
    requires few { owed ≤ 999 }
    ensures { Gives view_statement (perform (plain_by types.now d context owed kind) cursor.old) result cursor.new }
{
    match kind {
        Kind::Name => simple::named(alloc, types, cursor, d, context, owed),
        other => {
            if begins_declaration(other) {
                simple::declared(alloc, types, cursor, d, context, owed)
            } else {
                simple::expressed(alloc, types, cursor, d, owed)
            }
        }
    }
}

/// A statement that holds no others, at a token of this kind.
fn simple_statement(
    alloc: Global,
    types: &NameEnvironment<'_>,
    cursor: &mut Cursor<'_>,
    d: u32,
    context: Context,
    owed: u32,
    kind: Kind,
) -> Result<Boxed<Stmt>, Refusal>
    requires small { d ≤ 1000 }
    requires few { owed ≤ 999 }
    ensures { Gives view_statement (perform (simple_by types.now d context owed kind) cursor.old) result cursor.new }
{
    match kind {
        Kind::Semicolon => simple::empty(alloc, types, cursor, d, owed),
        Kind::Case => simple::case(alloc, types, cursor, d, context, owed),
        Kind::Default => simple::default(alloc, types, cursor, d, context, owed),
        Kind::Break => simple::break_out(alloc, types, cursor, d, context, owed),
        Kind::Continue => simple::continue_on(alloc, types, cursor, d, context, owed),
        Kind::Return => simple::return_back(alloc, types, cursor, d, owed),
        Kind::Goto => simple::go_to(alloc, types, cursor, d, owed),
        other => plain_statement(alloc, types, cursor, d, context, owed, other),
    }
}

impl<
    F: Fn(
        Global,
        &NameEnvironment<'_>,
        &mut Cursor<'_>,
        usize,
        u32,
        Nested,
    ) -> Result<Found, Refusal>,
> Statements<'_, F> {
    /// A statement at a token of this kind.
    fn begun(
        &self,
        cursor: &mut Cursor<'_>,
        d: u32,
        context: Context,
        owed: u32,
        kind: Kind,
    ) -> Result<Boxed<Stmt>, Refusal>
        requires nests { Nests self.now.budget (F.pre self.now.read) (F.post self.now.read) }
        requires small { d ≤ 1000 }
        requires few { owed ≤ 999 }
        ensures { Gives view_statement (perform (statement_by self.now.types.now d context owed kind) cursor.old) result cursor.new }
    {
        match kind {
            Kind::OpenBrace => self.braced(cursor, d, context, owed),
            Kind::If => self.if_statement(cursor, d, context, owed),
            Kind::While => self.while_loop(cursor, d, context, owed),
            Kind::Do => self.do_loop(cursor, d, context, owed),
            Kind::For => self.for_loop(cursor, d, context, owed),
            Kind::Switch => self.switch(cursor, d, context, owed),
            other => simple_statement(self.alloc, self.types, cursor, d, context, owed, other),
        }
    }

    /// A statement, whose first token makes so many nodes necessary besides its own.
    #[tactic(auto, using(c_grammar::proofs::Opens::statement_performs))]
    pub fn any(
        &self,
        cursor: &mut Cursor<'_>,
        d: u32,
        context: Context,
        owed: u32,
    ) -> Result<Boxed<Stmt>, Refusal>
        requires nests { Nests self.now.budget (F.pre self.now.read) (F.post self.now.read) }
        requires small { d ≤ 1000 }
        requires few { owed ≤ 999 }
        ensures { Gives view_statement (read (a_statement self.now.types.now d context owed) cursor.old) result cursor.new }
    {
        let kind = kind(self.types, cursor);
        self.begun(cursor, d, context, owed, kind)
    }
}

//! Statements that hold others.

ghost use Rattle.std.specs.Prelude.{◌≡◌, ◌≤◌, [], map, option_map, IfOk};
ghost use Rattle.c_tree.specs.View.{view_expression};
ghost use Rattle.c_tree.specs.StatementView.{view_start, view_statement, statements_of};
ghost use Rattle.c_tree.specs.Tree.{block};
ghost use Rattle.c_grammar.specs.declared.kind.Kind.TheVariants as k;
ghost use Rattle.c_grammar.specs.Body.{look};
ghost use Rattle.c_grammar.specs.Performing.{perform};
ghost use Rattle.c_grammar.specs.Rules.{statement_by, else_by};
ghost use Rattle.c_grammar.specs.Gives.{Gives};
ghost use Rattle.statement_parser.specs.Nests.{Nests};
ghost use Rattle.statement_parser.specs.Parts.{condition, if_branch, while_repeated, do_condition, do_ended, for_tested, for_repeated, switched};

use crate::context::Context;
use crate::optional::{optional, start, unboxed};
use crate::reader::{Found, Nested, Statements};
use c_grammar::steps::{expect, spend};
use c_grammar::{Cursor, Kind, NameEnvironment, Refusal};
use c_tree::{Expr, ForStart, Stmt};
use sqlite_items::{Boxed, Items};
use std::alloc::{AllocError, Global};
use type_parser::nest::expression;

/// Statements as one.
#[tactic(auto, using(c_tree::proofs::StatementViewLemmas::view_Stmt_Block))]
fn as_block(alloc: Global, found: Items<Stmt>) -> Result<Boxed<Stmt>, AllocError>
    ensures { IfOk result (λ b. view_statement b ≡ block (statements_of (map view_statement found))) }
{
    Boxed::new(alloc, Stmt::Block(found))
}

/// What an if, a while or a switch begins with: its word, and an expression in brackets.
fn condition(
    alloc: Global,
    types: &NameEnvironment<'_>,
    cursor: &mut Cursor<'_>,
    d: u32,
    owed: u32,
) -> Result<Boxed<Expr>, Refusal>
    requires small { d ≤ 1000 }
    requires few { owed ≤ 999 }
    ensures reads { Gives view_expression (perform (condition types.now d owed) cursor.old) result cursor.new }
    ensures shallow { IfOk result (λ _. d ≤ 998) }
{
    spend(cursor, owed + 2, d + 2)?;
    cursor.take();
    expect(cursor, Kind::OpenParen)?;
    let found = expression(alloc, types, cursor, d + 1, 1, 0)?;
    expect(cursor, Kind::CloseParen)?;
    Ok(found)
}

/// The end of a do, with its semicolon.
#[tactic(auto, using(c_tree::proofs::StatementViewLemmas::view_Stmt_DoWhile))]
fn do_ended(
    alloc: Global,
    cursor: &mut Cursor<'_>,
    repeated: Boxed<Stmt>,
    condition: Boxed<Expr>,
) -> Result<Boxed<Stmt>, Refusal>
    ensures { Gives view_statement (perform (do_ended (view_statement repeated) (view_expression condition)) cursor.old) result cursor.new }
{
    expect(cursor, Kind::CloseParen)?;
    expect(cursor, Kind::Semicolon)?;
    let condition = condition.into_inner();
    Ok(Boxed::new(alloc, Stmt::DoWhile(repeated, condition))?)
}

/// A do, behind what it repeats.
fn do_condition(
    alloc: Global,
    types: &NameEnvironment<'_>,
    cursor: &mut Cursor<'_>,
    d: u32,
    repeated: Boxed<Stmt>,
) -> Result<Boxed<Stmt>, Refusal>
    requires { d ≤ 1000 }
    ensures { Gives view_statement (perform (do_condition types.now d (view_statement repeated)) cursor.old) result cursor.new }
{
    expect(cursor, Kind::While)?;
    expect(cursor, Kind::OpenParen)?;
    let condition = expression(alloc, types, cursor, d + 1, 1, 0)?;
    do_ended(alloc, cursor, repeated, condition)
}

impl<
    F: Fn(
        Global,
        &NameEnvironment<'_>,
        &mut Cursor<'_>,
        usize,
        u32,
        Nested,
    ) -> Result<Found, Refusal>,
> Statements<'_, F> {
    /// Statements in their braces.
    #[tactic(auto, using(c_tree::proofs::StatementViewLemmas::view_Stmt_Block))]
    pub fn braced(
        &self,
        cursor: &mut Cursor<'_>,
        d: u32,
        context: Context,
        owed: u32,
    ) -> Result<Boxed<Stmt>, Refusal>
        requires nests { Nests self.now.budget (F.pre self.now.read) (F.post self.now.read) }
        requires small { d ≤ 1000 }
        ensures { Gives view_statement (perform (statement_by self.now.types.now d context owed k.OpenBrace) cursor.old) result cursor.new }
    {
        spend(cursor, owed, d + 1)?;
        cursor.take();
        let found = self.block(cursor, d + 1, context.of_block())?;
        Ok(Boxed::new(self.alloc, Stmt::Block(found))?)
    }

    /// An else and its branch.
    #[tactic(auto, using(crate::proofs::Branches::view_if_else))]
    fn other_branch(
        &self,
        cursor: &mut Cursor<'_>,
        d: u32,
        context: Context,
        condition: Boxed<Expr>,
        branch: Boxed<Stmt>,
    ) -> Result<Boxed<Stmt>, Refusal>
        requires nests { Nests self.now.budget (F.pre self.now.read) (F.post self.now.read) }
        requires small { d ≤ 1000 }
        ensures { Gives view_statement (perform (else_by self.now.types.now d context (view_expression condition) (view_statement branch) k.Else) cursor.old) result cursor.new }
    {
        spend(cursor, 1, d + 2)?;
        cursor.take();
        let other = self.statement(cursor, d + 1, context.of_branch(), 0)?;
        let condition = condition.into_inner();
        Ok(Boxed::new(self.alloc, Stmt::If(condition, branch, Some(other)))?)
    }

    /// Behind the branch of an if: an else and its branch, or nothing.
    #[tactic(auto, using(crate::proofs::Branches::view_if))]
    fn alternative(
        &self,
        cursor: &mut Cursor<'_>,
        d: u32,
        context: Context,
        condition: Boxed<Expr>,
        branch: Boxed<Stmt>,
    ) -> Result<Boxed<Stmt>, Refusal>
        requires nests { Nests self.now.budget (F.pre self.now.read) (F.post self.now.read) }
        requires small { d ≤ 1000 }
        ensures { Gives view_statement (perform (look [] (else_by self.now.types.now d context (view_expression condition) (view_statement branch))) cursor.old) result cursor.new }
    {
        match cursor.kind() {
            Kind::Else => self.other_branch(cursor, d, context, condition, branch),
            _ => Ok(Boxed::new(self.alloc, Stmt::If(condition.into_inner(), branch, None))?),
        }
    }

    /// An if, behind its condition.
    fn if_branch(
        &self,
        cursor: &mut Cursor<'_>,
        d: u32,
        context: Context,
        condition: Boxed<Expr>,
    ) -> Result<Boxed<Stmt>, Refusal>
        requires nests { Nests self.now.budget (F.pre self.now.read) (F.post self.now.read) }
        requires small { d ≤ 998 }
        ensures { Gives view_statement (perform (if_branch self.now.types.now d context (view_expression condition)) cursor.old) result cursor.new }
    {
        let branch = self.statement(cursor, d + 1, context.of_branch(), 0)?;
        self.alternative(cursor, d, context, condition, branch)
    }

    /// An if, with an else or without.
    pub fn if_statement(
        &self,
        cursor: &mut Cursor<'_>,
        d: u32,
        context: Context,
        owed: u32,
    ) -> Result<Boxed<Stmt>, Refusal>
        requires nests { Nests self.now.budget (F.pre self.now.read) (F.post self.now.read) }
        requires small { d ≤ 1000 }
        requires few { owed ≤ 999 }
        ensures { Gives view_statement (perform (statement_by self.now.types.now d context owed k.If) cursor.old) result cursor.new }
    {
        let condition = condition(self.alloc, self.types, cursor, d, owed)?;
        self.if_branch(cursor, d, context, condition)
    }

    /// A while, behind its condition.
    #[tactic(auto, using(c_tree::proofs::StatementViewLemmas::view_Stmt_While))]
    fn while_repeated(
        &self,
        cursor: &mut Cursor<'_>,
        d: u32,
        context: Context,
        condition: Boxed<Expr>,
    ) -> Result<Boxed<Stmt>, Refusal>
        requires nests { Nests self.now.budget (F.pre self.now.read) (F.post self.now.read) }
        requires small { d ≤ 998 }
        ensures { Gives view_statement (perform (while_repeated self.now.types.now d context (view_expression condition)) cursor.old) result cursor.new }
    {
        let repeated = self.statement(cursor, d + 1, context.of_loop(), 0)?;
        let condition = condition.into_inner();
        Ok(Boxed::new(self.alloc, Stmt::While(condition, repeated))?)
    }

    /// A while.
    pub fn while_loop(
        &self,
        cursor: &mut Cursor<'_>,
        d: u32,
        context: Context,
        owed: u32,
    ) -> Result<Boxed<Stmt>, Refusal>
        requires nests { Nests self.now.budget (F.pre self.now.read) (F.post self.now.read) }
        requires small { d ≤ 1000 }
        requires few { owed ≤ 999 }
        ensures { Gives view_statement (perform (statement_by self.now.types.now d context owed k.While) cursor.old) result cursor.new }
    {
        let condition = condition(self.alloc, self.types, cursor, d, owed)?;
        self.while_repeated(cursor, d, context, condition)
    }

    /// A do, with its condition.
    pub fn do_loop(
        &self,
        cursor: &mut Cursor<'_>,
        d: u32,
        context: Context,
        owed: u32,
    ) -> Result<Boxed<Stmt>, Refusal>
        requires nests { Nests self.now.budget (F.pre self.now.read) (F.post self.now.read) }
        requires small { d ≤ 1000 }
        requires few { owed ≤ 999 }
        ensures { Gives view_statement (perform (statement_by self.now.types.now d context owed k.Do) cursor.old) result cursor.new }
    {
        spend(cursor, owed + 2, d + 2)?;
        cursor.take();
        let repeated = self.statement(cursor, d + 1, context.of_loop(), 0)?;
        do_condition(self.alloc, self.types, cursor, d, repeated)
    }

    /// A for, behind its closing bracket.
    #[tactic(auto, using(c_tree::proofs::StatementViewLemmas::view_Stmt_For))]
    fn for_repeated(
        &self,
        cursor: &mut Cursor<'_>,
        d: u32,
        context: Context,
        first: Boxed<ForStart>,
        test: Option<Boxed<Expr>>,
        step: Option<Boxed<Expr>>,
    ) -> Result<Boxed<Stmt>, Refusal>
        requires nests { Nests self.now.budget (F.pre self.now.read) (F.post self.now.read) }
        requires small { d ≤ 998 }
        ensures { Gives view_statement (perform (for_repeated self.now.types.now d context (view_start first) (option_map view_expression test) (option_map view_expression step)) cursor.old) result cursor.new }
    {
        let repeated = self.statement(cursor, d + 1, context.of_loop(), 0)?;
        Ok(Boxed::new(
            self.alloc,
            Stmt::For(first.into_inner(), unboxed(test), unboxed(step), repeated),
        )?)
    }

    /// A for, behind what it begins with.
    fn for_tested(
        &self,
        cursor: &mut Cursor<'_>,
        d: u32,
        context: Context,
        first: Boxed<ForStart>,
    ) -> Result<Boxed<Stmt>, Refusal>
        requires nests { Nests self.now.budget (F.pre self.now.read) (F.post self.now.read) }
        requires small { d ≤ 998 }
        ensures { Gives view_statement (perform (for_tested self.now.types.now d context (view_start first)) cursor.old) result cursor.new }
    {
        let test = optional(self.alloc, self.types, cursor, d + 1, Kind::Semicolon)?;
        let step = optional(self.alloc, self.types, cursor, d + 1, Kind::CloseParen)?;
        self.for_repeated(cursor, d, context, first, test, step)
    }

    /// A for.
    pub fn for_loop(
        &self,
        cursor: &mut Cursor<'_>,
        d: u32,
        context: Context,
        owed: u32,
    ) -> Result<Boxed<Stmt>, Refusal>
        requires nests { Nests self.now.budget (F.pre self.now.read) (F.post self.now.read) }
        requires small { d ≤ 1000 }
        requires few { owed ≤ 999 }
        ensures { Gives view_statement (perform (statement_by self.now.types.now d context owed k.For) cursor.old) result cursor.new }
    {
        spend(cursor, owed + 1, d + 2)?;
        cursor.take();
        expect(cursor, Kind::OpenParen)?;
        let first = start(self.alloc, self.types, cursor, d + 1)?;
        self.for_tested(cursor, d, context, first)
    }

    /// A switch, behind its value.
    #[tactic(auto, using(c_tree::proofs::StatementViewLemmas::view_Stmt_Switch))]
    fn switched(
        &self,
        cursor: &mut Cursor<'_>,
        d: u32,
        context: Context,
        value: Boxed<Expr>,
    ) -> Result<Boxed<Stmt>, Refusal>
        requires nests { Nests self.now.budget (F.pre self.now.read) (F.post self.now.read) }
        requires small { d ≤ 998 }
        ensures { Gives view_statement (perform (switched self.now.types.now d context (view_expression value)) cursor.old) result cursor.new }
    {
        expect(cursor, Kind::OpenBrace)?;
        let found = self.block(cursor, d + 2, context.of_switch())?;
        let inner = as_block(self.alloc, found)?;
        Ok(Boxed::new(self.alloc, Stmt::Switch(value.into_inner(), inner))?)
    }

    /// A switch, with its block.
    pub fn switch(
        &self,
        cursor: &mut Cursor<'_>,
        d: u32,
        context: Context,
        owed: u32,
    ) -> Result<Boxed<Stmt>, Refusal>
        requires nests { Nests self.now.budget (F.pre self.now.read) (F.post self.now.read) }
        requires small { d ≤ 1000 }
        requires few { owed ≤ 999 }
        ensures { Gives view_statement (perform (statement_by self.now.types.now d context owed k.Switch) cursor.old) result cursor.new }
    {
        let value = condition(self.alloc, self.types, cursor, d, owed)?;
        self.switched(cursor, d, context, value)
    }
}

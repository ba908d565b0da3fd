//! Expressions: an operand, and how it goes on with operators.

ghost use Rattle.std.specs.Prelude.{◌≡◌, ◌≤◌, ◌∷◌, suc, map};
ghost use Rattle.c_tree.specs.ExpressionShape as shape;
ghost use Rattle.c_tree.specs.Tree.{expressions, comma, assign, choose, binary, unary, before, index, call, dot, arrow, after, name, integer, character, text};
ghost use Rattle.c_tree.specs.View.{view_expression, expressions_of};
ghost use Rattle.c_grammar.specs.Body.{look};
ghost use Rattle.c_grammar.specs.Reading.{read};
ghost use Rattle.c_grammar.specs.Rules.{an_expression, a_whole, a_prefix, a_rest, an_opened, more_texts, all_arguments, more_arguments, sized_by};
ghost use Rattle.expression_parser.specs.Beginning.{leaf, words, operand, turned, closed, bracketed, type_sized, size_of};
ghost use Rattle.expression_parser.specs.Extending.{extended, right_operand, choices, subscript, arguments, another, member_name, stepped};
ghost use Rattle.c_grammar.specs.Gives.{Gives};
ghost use Rattle.c_grammar.specs.Lists.{mapped};
ghost use Rattle.expression_parser.specs.Nests.{Nests};
ghost use Rattle.c_grammar.specs.Performing.{perform};

use crate::grammar::{Found, Grammar, Nested};
use crate::infix::{begins_type, first_of_operand, infix_behind, level, op_level};
use base_core::Lexeme;
use c_grammar::steps::{expect, kind, name, refused, rise, spend, word};
use c_grammar::{Cursor, First, Infix, Kind, NameEnvironment, Refusal, same_kind};
use c_tree::{AssignOp, BinaryOp, Expr, StepOp, UnaryOp};
use sqlite_items::{Boxed, Items};
use std::alloc::Global;

/// Texts that follow one another, behind the first.
fn texts(alloc: Global, cursor: &mut Cursor<'_>, first: Lexeme) -> Result<Items<Lexeme>, Refusal>
    ensures { Gives (λ ns. ns) (mapped (λ ns. first ∷ ns) (read more_texts cursor.old)) result cursor.new }
{
    let mut found = Items::new(alloc);
    found.push(first)?;
    while same_kind(cursor.kind(), Kind::Text) {
        found.push(word(alloc, cursor)?)?;
    }
    Ok(found)
}

/// The text of a token that is an operand.
fn leaf(alloc: Global, cursor: &mut Cursor<'_>, d: u32, owed: u32) -> Result<Lexeme, Refusal>
    requires small { d ≤ 1001 }
    ensures { Gives (λ n. n) (perform (leaf d owed) cursor.old) result cursor.new }
{
    spend(cursor, owed, d + 1)?;
    word(alloc, cursor)
}

/// Texts that follow one another.
fn words(
    alloc: Global,
    cursor: &mut Cursor<'_>,
    d: u32,
    owed: u32,
) -> Result<Items<Lexeme>, Refusal>
    requires small { d ≤ 1001 }
    ensures { Gives (λ ns. ns) (perform (words d owed) cursor.old) result cursor.new }
{
    spend(cursor, owed, d + 1)?;
    let first = word(alloc, cursor)?;
    let found = texts(alloc, cursor, first)?;
    Ok(found)
}

impl<
    F: Fn(
        Global,
        &NameEnvironment<'_>,
        &mut Cursor<'_>,
        usize,
        u32,
        Nested,
    ) -> Result<Found, Refusal>,
> Grammar<'_, F> {
    /// An operator, and its right operand.
    fn right_operand(
        &self,
        cursor: &mut Cursor<'_>,
        d: u32,
        least: u8,
    ) -> Result<Boxed<Expr>, Refusal>
        requires nests { Nests self.now.budget (F.pre self.now.read) (F.post self.now.read) }
        requires small { d ≤ 1001 }
        ensures { Gives view_expression (perform (right_operand self.now.types.now d least) cursor.old) result cursor.new }
    {
        rise(cursor)?;
        spend(cursor, 2, d + 2)?;
        cursor.take();
        self.expression(cursor, d + 1, least, 0)
    }

    /// Both choices behind a condition.
    fn choices(
        &self,
        cursor: &mut Cursor<'_>,
        d: u32,
    ) -> Result<(Boxed<Expr>, Boxed<Expr>), Refusal>
        requires nests { Nests self.now.budget (F.pre self.now.read) (F.post self.now.read) }
        requires small { d ≤ 1001 }
        ensures { Gives (λ p. (view_expression p.0, view_expression p.1)) (perform (choices self.now.types.now d) cursor.old) result cursor.new }
    {
        rise(cursor)?;
        spend(cursor, 3, d + 2)?;
        cursor.take();
        let first = self.expression(cursor, d + 1, 1, 0)?;
        expect(cursor, Kind::Colon)?;
        let other = self.expression(cursor, d + 1, 3, 0)?;
        Ok((first, other))
    }

    /// A condition and its choices.
    #[tactic(auto, using(c_tree::proofs::ViewLemmas::view_Expr_Choose))]
    fn chosen(
        &self,
        cursor: &mut Cursor<'_>,
        d: u32,
        test: Boxed<Expr>,
    ) -> Result<Boxed<Expr>, Refusal>
        requires nests { Nests self.now.budget (F.pre self.now.read) (F.post self.now.read) }
        requires small { d ≤ 1001 }
        ensures { Gives view_expression (mapped (λ p. choose (view_expression test) p.0 p.1) (perform (choices self.now.types.now d) cursor.old)) result cursor.new }
    {
        let (first, other) = self.choices(cursor, d)?;
        Ok(Boxed::new(self.alloc, Expr::Choose(test, first, other))?)
    }

    /// A subscript in its brackets.
    fn subscript(&self, cursor: &mut Cursor<'_>, d: u32) -> Result<Boxed<Expr>, Refusal>
        requires nests { Nests self.now.budget (F.pre self.now.read) (F.post self.now.read) }
        requires small { d ≤ 1001 }
        ensures { Gives view_expression (perform (subscript self.now.types.now d) cursor.old) result cursor.new }
    {
        rise(cursor)?;
        spend(cursor, 2, d + 2)?;
        cursor.take();
        let found = self.expression(cursor, d + 1, 1, 0)?;
        expect(cursor, Kind::CloseBracket)?;
        Ok(found)
    }

    /// An array and its subscript.
    #[tactic(auto, using(c_tree::proofs::ViewLemmas::view_Expr_Index))]
    fn indexed(
        &self,
        cursor: &mut Cursor<'_>,
        d: u32,
        array: Boxed<Expr>,
    ) -> Result<Boxed<Expr>, Refusal>
        requires nests { Nests self.now.budget (F.pre self.now.read) (F.post self.now.read) }
        requires small { d ≤ 1001 }
        ensures { Gives view_expression (mapped (index (view_expression array)) (perform (subscript self.now.types.now d) cursor.old)) result cursor.new }
    {
        let found = self.subscript(cursor, d)?;
        Ok(Boxed::new(self.alloc, Expr::Index(array, found))?)
    }

    /// Arguments in their brackets.
    #[tactic(auto, using(c_tree::proofs::ViewLemmas::view_Expr_Call))]
    fn called(
        &self,
        cursor: &mut Cursor<'_>,
        d: u32,
        function: Boxed<Expr>,
    ) -> Result<Boxed<Expr>, Refusal>
        requires nests { Nests self.now.budget (F.pre self.now.read) (F.post self.now.read) }
        requires small { d ≤ 1001 }
        ensures { Gives view_expression (mapped (call (view_expression function)) (perform (arguments self.now.types.now d) cursor.old)) result cursor.new }
    {
        rise(cursor)?;
        spend(cursor, 1, d + 1)?;
        cursor.take();
        let found = self.all_arguments(cursor, d + 1)?;
        Ok(Boxed::new(self.alloc, Expr::Call(function, found))?)
    }

    /// Arguments with the closing bracket.
    #[tactic(auto, using(c_grammar::proofs::Opens::arguments_performs))]
    fn all_arguments(&self, cursor: &mut Cursor<'_>, d: u32) -> Result<Items<Expr>, Refusal>
        requires nests { Nests self.now.budget (F.pre self.now.read) (F.post self.now.read) }
        requires small { d ≤ 1001 }
        ensures { Gives (λ xs. expressions_of (map view_expression xs)) (read (all_arguments self.now.types.now d) cursor.old) result cursor.new }
    {
        match kind(self.types, cursor) {
            Kind::CloseParen => {
                cursor.take();
                Ok(Items::new(self.alloc))
            }
            _ => {
                let first = self.expression(cursor, d, 2, 1)?;
                self.more_arguments(cursor, d, first)
            }
        }
    }

    /// Arguments, behind the first, with the closing bracket.
    fn more_arguments(
        &self,
        cursor: &mut Cursor<'_>,
        d: u32,
        first: Boxed<Expr>,
    ) -> Result<Items<Expr>, Refusal>
        requires nests { Nests self.now.budget (F.pre self.now.read) (F.post self.now.read) }
        requires small { d ≤ 1001 }
        ensures { Gives (λ xs. expressions_of (map view_expression xs)) (mapped (expressions (view_expression first)) (read (more_arguments self.now.types.now d) cursor.old)) result cursor.new }
    {
        let mut found = Items::new(self.alloc);
        found.push(first.into_inner())?;
        while same_kind(cursor.kind(), Kind::Comma) {
            let next = self.another(cursor, d)?;
            found.push(next.into_inner())?;
        }
        expect(cursor, Kind::CloseParen)?;
        Ok(found)
    }

    /// One more argument, behind a comma.
    fn another(&self, cursor: &mut Cursor<'_>, d: u32) -> Result<Boxed<Expr>, Refusal>
        requires nests { Nests self.now.budget (F.pre self.now.read) (F.post self.now.read) }
        requires small { d ≤ 1001 }
        ensures { Gives view_expression (perform (another self.now.types.now d) cursor.old) result cursor.new }
    {
        spend(cursor, 1, d + 1)?;
        cursor.take();
        self.expression(cursor, d, 2, 0)
    }

    /// The name of a member, behind a point or an arrow.
    fn member_name(&self, cursor: &mut Cursor<'_>, d: u32) -> Result<Lexeme, Refusal>
        requires nests { Nests self.now.budget (F.pre self.now.read) (F.post self.now.read) }
        requires small { d ≤ 1001 }
        ensures { Gives (λ n. n) (perform (member_name self.now.types.now d) cursor.old) result cursor.new }
    {
        rise(cursor)?;
        spend(cursor, 1, d + 1)?;
        cursor.take();
        name(self.alloc, self.types, cursor)
    }

    /// A member behind a point.
    #[tactic(auto, using(c_tree::proofs::ViewLemmas::view_Expr_Dot))]
    fn dotted(
        &self,
        cursor: &mut Cursor<'_>,
        d: u32,
        value: Boxed<Expr>,
    ) -> Result<Boxed<Expr>, Refusal>
        requires nests { Nests self.now.budget (F.pre self.now.read) (F.post self.now.read) }
        requires small { d ≤ 1001 }
        ensures { Gives view_expression (mapped (dot (view_expression value)) (perform (member_name self.now.types.now d) cursor.old)) result cursor.new }
    {
        let member = self.member_name(cursor, d)?;
        Ok(Boxed::new(self.alloc, Expr::Dot(value, member))?)
    }

    /// A member behind an arrow.
    #[tactic(auto, using(c_tree::proofs::ViewLemmas::view_Expr_Arrow))]
    fn pointed(
        &self,
        cursor: &mut Cursor<'_>,
        d: u32,
        pointer: Boxed<Expr>,
    ) -> Result<Boxed<Expr>, Refusal>
        requires nests { Nests self.now.budget (F.pre self.now.read) (F.post self.now.read) }
        requires small { d ≤ 1001 }
        ensures { Gives view_expression (mapped (arrow (view_expression pointer)) (perform (member_name self.now.types.now d) cursor.old)) result cursor.new }
    {
        let member = self.member_name(cursor, d)?;
        Ok(Boxed::new(self.alloc, Expr::Arrow(pointer, member))?)
    }

    /// `++` or `--` behind its operand.
    #[tactic(auto, using(c_tree::proofs::ViewLemmas::view_Expr_After))]
    fn stepped(
        &self,
        cursor: &mut Cursor<'_>,
        d: u32,
        op: StepOp,
        value: Boxed<Expr>,
    ) -> Result<Boxed<Expr>, Refusal>
        requires nests { Nests self.now.budget (F.pre self.now.read) (F.post self.now.read) }
        requires small { d ≤ 1001 }
        ensures { Gives view_expression (mapped (λ u. after op (view_expression value)) (perform (stepped d) cursor.old)) result cursor.new }
    {
        rise(cursor)?;
        spend(cursor, 1, d + 1)?;
        cursor.take();
        Ok(Boxed::new(self.alloc, Expr::After(op, value))?)
    }

    /// A comma and its right operand.
    #[tactic(auto, using(c_tree::proofs::ViewLemmas::view_Expr_Comma))]
    fn followed(
        &self,
        cursor: &mut Cursor<'_>,
        d: u32,
        left: Boxed<Expr>,
    ) -> Result<Boxed<Expr>, Refusal>
        requires nests { Nests self.now.budget (F.pre self.now.read) (F.post self.now.read) }
        requires small { d ≤ 1001 }
        ensures { Gives view_expression (mapped (comma (view_expression left)) (perform (right_operand self.now.types.now d 2) cursor.old)) result cursor.new }
    {
        let right = self.right_operand(cursor, d, 2)?;
        Ok(Boxed::new(self.alloc, Expr::Comma(left, right))?)
    }

    /// An assignment and its right operand.
    #[tactic(auto, using(c_tree::proofs::ViewLemmas::view_Expr_Assign))]
    fn assigned(
        &self,
        cursor: &mut Cursor<'_>,
        d: u32,
        op: AssignOp,
        left: Boxed<Expr>,
    ) -> Result<Boxed<Expr>, Refusal>
        requires nests { Nests self.now.budget (F.pre self.now.read) (F.post self.now.read) }
        requires small { d ≤ 1001 }
        ensures { Gives view_expression (mapped (assign op (view_expression left)) (perform (right_operand self.now.types.now d 2) cursor.old)) result cursor.new }
    {
        let right = self.right_operand(cursor, d, 2)?;
        Ok(Boxed::new(self.alloc, Expr::Assign(op, left, right))?)
    }

    /// An operator of two operands and the right one.
    #[tactic(auto, using(c_tree::proofs::ViewLemmas::view_Expr_Binary))]
    fn operated(
        &self,
        cursor: &mut Cursor<'_>,
        d: u32,
        op: BinaryOp,
        left: Boxed<Expr>,
    ) -> Result<Boxed<Expr>, Refusal>
        requires nests { Nests self.now.budget (F.pre self.now.read) (F.post self.now.read) }
        requires small { d ≤ 1001 }
        ensures { Gives view_expression (mapped (binary op (view_expression left)) (perform (right_operand self.now.types.now d (suc (shape.op_level op))) cursor.old)) result cursor.new }
    {
        let right = self.right_operand(cursor, d, op_level(op) + 1)?;
        Ok(Boxed::new(self.alloc, Expr::Binary(op, left, right))?)
    }

    /// What an operator makes of the expression before it.
    fn extended(
        &self,
        cursor: &mut Cursor<'_>,
        d: u32,
        left: Boxed<Expr>,
        sign: Infix,
    ) -> Result<Boxed<Expr>, Refusal>
        requires nests { Nests self.now.budget (F.pre self.now.read) (F.post self.now.read) }
        requires small { d ≤ 1001 }
        ensures { Gives view_expression (extended self.now.types.now d (view_expression left) sign cursor.old) result cursor.new }
    {
        match sign {
            Infix::Comma => self.followed(cursor, d, left),
            Infix::Assign(op) => self.assigned(cursor, d, op, left),
            Infix::Question => self.chosen(cursor, d, left),
            Infix::Operator(op) => self.operated(cursor, d, op, left),
            Infix::Index => self.indexed(cursor, d, left),
            Infix::Call => self.called(cursor, d, left),
            Infix::Dot => self.dotted(cursor, d, left),
            Infix::Arrow => self.pointed(cursor, d, left),
            Infix::Step(op) => self.stepped(cursor, d, op, left),
        }
    }

    /// How an expression goes on behind what was read of it.
    pub fn rest(
        &self,
        cursor: &mut Cursor<'_>,
        d: u32,
        least: u8,
        x: Boxed<Expr>,
    ) -> Result<Boxed<Expr>, Refusal>
        requires nests { Nests self.now.budget (F.pre self.now.read) (F.post self.now.read) }
        requires small { d ≤ 1001 }
        ensures { Gives view_expression (read (a_rest self.now.types.now d least (view_expression x)) cursor.old) result cursor.new }
    {
        let mut left = x;
        while let Some(sign) = infix_behind(least, kind(self.types, cursor), level(left.get())) {
            left = self.extended(cursor, d, left, sign)?;
        }
        Ok(left)
    }

    /// The operand of `sizeof` that begins with a bracket, which was read.
    #[tactic(auto, using(c_grammar::proofs::Opens::opened_performs, c_tree::proofs::ViewLemmas::view_Expr_Paren))]
    fn opened(&self, cursor: &mut Cursor<'_>, d: u32) -> Result<Boxed<Expr>, Refusal>
        requires nests { Nests self.now.budget (F.pre self.now.read) (F.post self.now.read) }
        requires small { d ≤ 1000 }
        ensures { Gives view_expression (read (an_opened self.now.types.now d) cursor.old) result cursor.new }
    {
        let inner = self.expression(cursor, d + 1, 1, 2)?;
        expect(cursor, Kind::CloseParen)?;
        let operand = Boxed::new(self.alloc, Expr::Paren(inner))?;
        self.rest(cursor, d, 15, operand)
    }

    /// A type, which ends a bracket, and the operand that is turned to it.
    #[tactic(auto, using(c_tree::proofs::ViewLemmas::view_Expr_Cast))]
    fn turned(&self, cursor: &mut Cursor<'_>, d: u32) -> Result<Boxed<Expr>, Refusal>
        requires nests { Nests self.now.budget (F.pre self.now.read) (F.post self.now.read) }
        requires small { d ≤ 1000 }
        ensures { Gives view_expression (perform (turned self.now.types.now d) cursor.old) result cursor.new }
    {
        let ty = self.type_name(cursor, d + 1)?;
        expect(cursor, Kind::CloseParen)?;
        let operand = self.expression(cursor, d + 1, 14, 0)?;
        Ok(Boxed::new(self.alloc, Expr::Cast(ty, operand))?)
    }

    /// An expression, which ends a bracket.
    #[tactic(auto, using(c_tree::proofs::ViewLemmas::view_Expr_Paren))]
    fn closed(&self, cursor: &mut Cursor<'_>, d: u32) -> Result<Boxed<Expr>, Refusal>
        requires nests { Nests self.now.budget (F.pre self.now.read) (F.post self.now.read) }
        requires small { d ≤ 1000 }
        ensures { Gives view_expression (perform (closed self.now.types.now d) cursor.old) result cursor.new }
    {
        let inner = self.expression(cursor, d + 1, 1, 0)?;
        expect(cursor, Kind::CloseParen)?;
        Ok(Boxed::new(self.alloc, Expr::Paren(inner))?)
    }

    /// An open bracket, and what it holds: a type and an operand, or an expression.
    fn bracketed(
        &self,
        cursor: &mut Cursor<'_>,
        d: u32,
        owed: u32,
        least: u8,
    ) -> Result<Boxed<Expr>, Refusal>
        requires nests { Nests self.now.budget (F.pre self.now.read) (F.post self.now.read) }
        requires small { d ≤ 1001 }
        requires few { owed ≤ 1000 }
        ensures { Gives view_expression (perform (bracketed self.now.types.now d owed least) cursor.old) result cursor.new }
    {
        spend(cursor, owed + 1, d + 2)?;
        cursor.take();
        if begins_type(kind(self.types, cursor)) && least <= 14 {
            self.turned(cursor, d)
        } else {
            self.closed(cursor, d)
        }
    }

    /// A type, which ends the bracket behind `sizeof`.
    #[tactic(auto, using(c_tree::proofs::ViewLemmas::view_Expr_SizeOfType))]
    fn type_sized(&self, cursor: &mut Cursor<'_>, d: u32) -> Result<Boxed<Expr>, Refusal>
        requires nests { Nests self.now.budget (F.pre self.now.read) (F.post self.now.read) }
        requires small { d ≤ 999 }
        ensures { Gives view_expression (perform (type_sized self.now.types.now d) cursor.old) result cursor.new }
    {
        let ty = self.type_name(cursor, d + 1)?;
        expect(cursor, Kind::CloseParen)?;
        Ok(Boxed::new(self.alloc, Expr::SizeOfType(ty))?)
    }

    /// Behind `sizeof` and an open bracket: a type, or an operand that begins with the bracket.
    #[tactic(auto, using(c_tree::proofs::ViewLemmas::view_Expr_SizeOf))]
    fn sized(&self, cursor: &mut Cursor<'_>, d: u32) -> Result<Boxed<Expr>, Refusal>
        requires nests { Nests self.now.budget (F.pre self.now.read) (F.post self.now.read) }
        requires small { d ≤ 999 }
        ensures { Gives view_expression (perform (look self.now.types.now.types (sized_by self.now.types.now d)) cursor.old) result cursor.new }
    {
        if begins_type(kind(self.types, cursor)) {
            self.type_sized(cursor, d)
        } else {
            let outer = cursor.enter(d + 2);
            let operand = self.opened(cursor, d + 1)?;
            cursor.leave(outer);
            Ok(Boxed::new(self.alloc, Expr::SizeOf(operand))?)
        }
    }

    /// `sizeof`, and what is behind it.
    #[tactic(auto, using(c_tree::proofs::ViewLemmas::view_Expr_SizeOf))]
    fn size_of(&self, cursor: &mut Cursor<'_>, d: u32, owed: u32) -> Result<Boxed<Expr>, Refusal>
        requires nests { Nests self.now.budget (F.pre self.now.read) (F.post self.now.read) }
        requires small { d ≤ 1001 }
        ensures { Gives view_expression (perform (size_of self.now.types.now d owed) cursor.old) result cursor.new }
    {
        spend(cursor, owed, d + 1)?;
        cursor.take();
        match kind(self.types, cursor) {
            Kind::OpenParen => {
                cursor.take();
                self.sized(cursor, d)
            }
            _ => {
                let operand = self.expression(cursor, d + 1, 15, 1)?;
                Ok(Boxed::new(self.alloc, Expr::SizeOf(operand))?)
            }
        }
    }

    /// An operator, and the operand behind it.
    fn operand(
        &self,
        cursor: &mut Cursor<'_>,
        d: u32,
        owed: u32,
        least: u8,
    ) -> Result<Boxed<Expr>, Refusal>
        requires nests { Nests self.now.budget (F.pre self.now.read) (F.post self.now.read) }
        requires small { d ≤ 1001 }
        requires few { owed ≤ 1000 }
        ensures { Gives view_expression (perform (operand self.now.types.now d owed least) cursor.old) result cursor.new }
    {
        spend(cursor, owed + 1, d + 2)?;
        cursor.take();
        self.expression(cursor, d + 1, least, 0)
    }

    /// A name.
    #[tactic(auto, using(c_tree::proofs::ViewLemmas::view_Expr_Name))]
    fn a_name(&self, cursor: &mut Cursor<'_>, d: u32, owed: u32) -> Result<Boxed<Expr>, Refusal>
        requires nests { Nests self.now.budget (F.pre self.now.read) (F.post self.now.read) }
        requires small { d ≤ 1001 }
        ensures { Gives view_expression (mapped (λ n. name n) (perform (leaf d owed) cursor.old)) result cursor.new }
    {
        let found = leaf(self.alloc, cursor, d, owed)?;
        Ok(Boxed::new(self.alloc, Expr::Name(found))?)
    }

    /// An integer constant.
    #[tactic(auto, using(c_tree::proofs::ViewLemmas::view_Expr_Integer))]
    fn an_integer(&self, cursor: &mut Cursor<'_>, d: u32, owed: u32) -> Result<Boxed<Expr>, Refusal>
        requires nests { Nests self.now.budget (F.pre self.now.read) (F.post self.now.read) }
        requires small { d ≤ 1001 }
        ensures { Gives view_expression (mapped (λ n. integer n) (perform (leaf d owed) cursor.old)) result cursor.new }
    {
        let found = leaf(self.alloc, cursor, d, owed)?;
        Ok(Boxed::new(self.alloc, Expr::Integer(found))?)
    }

    /// A character constant.
    #[tactic(auto, using(c_tree::proofs::ViewLemmas::view_Expr_Character))]
    fn a_character(
        &self,
        cursor: &mut Cursor<'_>,
        d: u32,
        owed: u32,
    ) -> Result<Boxed<Expr>, Refusal>
        requires nests { Nests self.now.budget (F.pre self.now.read) (F.post self.now.read) }
        requires small { d ≤ 1001 }
        ensures { Gives view_expression (mapped (λ n. character n) (perform (leaf d owed) cursor.old)) result cursor.new }
    {
        let found = leaf(self.alloc, cursor, d, owed)?;
        Ok(Boxed::new(self.alloc, Expr::Character(found))?)
    }

    /// Texts that follow one another.
    #[tactic(auto, using(c_tree::proofs::ViewLemmas::view_Expr_Text))]
    fn a_text(&self, cursor: &mut Cursor<'_>, d: u32, owed: u32) -> Result<Boxed<Expr>, Refusal>
        requires nests { Nests self.now.budget (F.pre self.now.read) (F.post self.now.read) }
        requires small { d ≤ 1001 }
        ensures { Gives view_expression (mapped (λ ns. text ns) (perform (words d owed) cursor.old)) result cursor.new }
    {
        let found = words(self.alloc, cursor, d, owed)?;
        Ok(Boxed::new(self.alloc, Expr::Text(found))?)
    }

    /// `++` or `--` before its operand.
    #[tactic(auto, using(c_tree::proofs::ViewLemmas::view_Expr_Before))]
    fn step_before(
        &self,
        cursor: &mut Cursor<'_>,
        d: u32,
        owed: u32,
        op: StepOp,
    ) -> Result<Boxed<Expr>, Refusal>
        requires nests { Nests self.now.budget (F.pre self.now.read) (F.post self.now.read) }
        requires small { d ≤ 1001 }
        requires few { owed ≤ 1000 }
        ensures { Gives view_expression (mapped (before op) (perform (operand self.now.types.now d owed 15) cursor.old)) result cursor.new }
    {
        let found = self.operand(cursor, d, owed, 15)?;
        Ok(Boxed::new(self.alloc, Expr::Before(op, found))?)
    }

    /// A unary operator before its operand.
    #[tactic(auto, using(c_tree::proofs::ViewLemmas::view_Expr_Unary))]
    fn unary(
        &self,
        cursor: &mut Cursor<'_>,
        d: u32,
        owed: u32,
        op: UnaryOp,
    ) -> Result<Boxed<Expr>, Refusal>
        requires nests { Nests self.now.budget (F.pre self.now.read) (F.post self.now.read) }
        requires small { d ≤ 1001 }
        requires few { owed ≤ 1000 }
        ensures { Gives view_expression (mapped (unary op) (perform (operand self.now.types.now d owed 14) cursor.old)) result cursor.new }
    {
        let found = self.operand(cursor, d, owed, 14)?;
        Ok(Boxed::new(self.alloc, Expr::Unary(op, found))?)
    }

    /// The first operand.
    #[tactic(auto, using(crate::proofs::Beginning::prefix_begins))]
    fn prefix(
        &self,
        cursor: &mut Cursor<'_>,
        d: u32,
        least: u8,
        owed: u32,
    ) -> Result<Boxed<Expr>, Refusal>
        requires nests { Nests self.now.budget (F.pre self.now.read) (F.post self.now.read) }
        requires small { d ≤ 1001 }
        requires few { owed ≤ 1000 }
        ensures { Gives view_expression (read (a_prefix self.now.types.now d least owed) cursor.old) result cursor.new }
    {
        let Some(first) = first_of_operand(kind(self.types, cursor)) else {
            return Err(refused(cursor));
        };
        match first {
            First::Word => self.a_name(cursor, d, owed),
            First::Number => self.an_integer(cursor, d, owed),
            First::Character => self.a_character(cursor, d, owed),
            First::Text => self.a_text(cursor, d, owed),
            First::Open => self.bracketed(cursor, d, owed, least),
            First::Sizeof => self.size_of(cursor, d, owed),
            First::Step(op) => self.step_before(cursor, d, owed, op),
            First::Unary(op) => self.unary(cursor, d, owed, op),
        }
    }

    /// An operand and what is behind it.
    #[tactic(auto, using(c_grammar::proofs::Opens::whole_performs))]
    fn whole(
        &self,
        cursor: &mut Cursor<'_>,
        d: u32,
        least: u8,
        owed: u32,
    ) -> Result<Boxed<Expr>, Refusal>
        requires nests { Nests self.now.budget (F.pre self.now.read) (F.post self.now.read) }
        requires small { d ≤ 1001 }
        requires few { owed ≤ 1000 }
        ensures { Gives view_expression (read (a_whole self.now.types.now d least owed) cursor.old) result cursor.new }
    {
        let first = self.prefix(cursor, d, least, owed)?;
        self.rest(cursor, d, least, first)
    }

    /// An expression of at least this level, whose first token makes so many nodes necessary besides its own.
    #[tactic(auto, using(c_grammar::proofs::Opens::expression_performs))]
    pub fn level(
        &self,
        cursor: &mut Cursor<'_>,
        d: u32,
        least: u8,
        owed: u32,
    ) -> Result<Boxed<Expr>, Refusal>
        requires nests { Nests self.now.budget (F.pre self.now.read) (F.post self.now.read) }
        requires small { d ≤ 1001 }
        requires few { owed ≤ 1000 }
        ensures { Gives view_expression (read (an_expression self.now.types.now d least owed) cursor.old) result cursor.new }
    {
        let outer = cursor.enter(d + 1);
        let found = self.whole(cursor, d, least, owed)?;
        cursor.leave(outer);
        Ok(found)
    }
}

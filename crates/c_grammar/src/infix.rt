//! What an expression begins and goes on with.

use c_tree::{AssignOp, BinaryOp, StepOp, UnaryOp};

/// What an operand begins with (C11 6.5.1 and 6.5.3): a name, a constant, a text, an open bracket, `sizeof`, `++` or `--`, or
/// a unary operator.
#[derive(Clone, Copy)]
pub enum First {
    Word,
    Number,
    Character,
    Text,
    Open,
    Sizeof,
    Step(StepOp),
    Unary(UnaryOp),
}

/// What an expression goes on with (C11 6.5.2, 6.5.5 to 6.5.17): an operator between two operands, or what stands behind one.
#[derive(Clone, Copy)]
pub enum Infix {
    Comma,
    Assign(AssignOp),
    Question,
    Operator(BinaryOp),
    Index,
    Call,
    Dot,
    Arrow,
    Step(StepOp),
}

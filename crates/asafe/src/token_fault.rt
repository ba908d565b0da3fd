/// Why a token of a text doesn't fit.
#[derive(Clone, Copy, Debug, PartialEq, Eq)]
pub(crate) enum TokenFault {
    /// No program's tokens begin with those up to it. Of the number of tokens: they are the tokens of no program.
    Syntax,
    /// More than 100 brackets are open at it for the first time.
    Nested,
}

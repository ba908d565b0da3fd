ghost use Rattle.std.specs.Prelude.{◌≡◌, ◌≢◌, ◌↔◌, List, IfOk, IsTrue, IsErrOf};
ghost use Rattle.flat_programs.specs.Shape.{HasShape};
ghost use Rattle.flat_programs.specs.FlatTree.{FlatTree};
ghost use Rattle.flat_programs.specs.FlatShape.{IsFlat};
ghost use Rattle.flat_programs.specs.FlatSpelling.{spell};
ghost use Rattle.flat_programs.specs.Programs.{ReadsTree};

use crate::FlatProgram;
use crate::body::statements;
use crate::handler::handlers;
use crate::head::{main_head, main_tail};
use crate::shape::{installs_are_named, is_small, names_differ};
use base_core::{NoMemory, Token};
use c_lexer::Tokens;
use std::alloc::Global;
use thiserror::Error;

/// Why tokens have no tree.
#[derive(Clone, Copy, Debug, PartialEq, Eq, Error)]
pub enum FlatFault {
    /// The tokens are not those of a flat program.
    #[error("not a flat program")]
    NotFlat,
    /// There is not enough memory.
    #[error("not enough memory")]
    NoMemory,
}

impl From<NoMemory> for FlatFault {
    ghost use Rattle.flat_programs.specs.declared.program.FlatFault.TheVariants.{NoMemory};

    ghost from_gives = { λ _ e. e ≡ NoMemory };

    fn from(_: NoMemory) -> Self {
        FlatFault::NoMemory
    }
}

/// The tree that the tokens spell, but for the conditions on names and numbers; None exactly where there is none.
fn tree(alloc: Global, tokens: &[Token]) -> Result<Option<FlatProgram>, NoMemory>
    ensures { IfOk result (λ read. ReadsTree tokens.now read) }
{
    let (handlers, rest) = handlers(alloc, tokens)?;
    match main_head(rest) {
        None => Ok(None),
        Some(rest) => {
            let (statements, rest) = statements(alloc, rest)?;
            match main_tail(rest) {
                None => Ok(None),
                Some(end) => {
                    if end.is_empty() {
                        Ok(Some(FlatProgram::new(handlers, statements)))
                    } else {
                        Ok(None)
                    }
                }
            }
        }
    }
}

/// Whether the conditions on names and numbers hold.
fn has_shape(program: &FlatProgram) -> bool
    ensures { IsTrue result ↔ HasShape program.now }
{
    is_small(program.handlers(), program.statements())
        && names_differ(program.handlers())
        && installs_are_named(program.handlers(), program.statements())
}

/// The tree of which the tokens are the spelling.
pub fn read_flat(alloc: Global, tokens: &Tokens) -> Result<FlatProgram, FlatFault>
    ensures shaped { IfOk result (λ t. IsFlat t) }
    ensures spelled { IfOk result (λ t. spell t ≡ tokens.now.tokens) }
    ensures only { IfOk result (λ t. (u : FlatTree) → IsFlat u → spell u ≡ tokens.now.tokens → u ≡ t) }
    ensures not_yet { IsErrOf result FlatFault.NotFlat → (u : FlatTree) → IsFlat u → spell u ≢ tokens.now.tokens }
{
    match tree(alloc, tokens.as_slice())? {
        Some(program) => {
            if has_shape(&program) {
                Ok(program)
            } else {
                Err(FlatFault::NotFlat)
            }
        }
        None => Err(FlatFault::NotFlat),
    }
}

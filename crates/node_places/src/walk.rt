ghost use Rattle.std.specs.Prelude.{◌≡◌, [], OnOk};
ghost use Rattle.node_places.specs.Walked.{walked, skip, skip_if, begin, close};

use std::alloc::{AllocError, Global};

/// A walk over a tree: the index of the next token, the first tokens of the nodes passed, and the last tokens of the
/// functions passed.
#[derive(Drop)]
pub(crate) struct Walk {
    pub(crate) at: usize,
    pub(crate) starts: Vec<usize>,
    pub(crate) closes: Vec<usize>,
}

impl Walk {
    /// A walk that begins at the first token.
    pub(crate) fn new(alloc: Global) -> Self
        ensures { walked result ≡ record { at = 0; starts = []; closes = [] } }
    {
        Walk {
            at: 0,
            starts: Vec::new(alloc),
            closes: Vec::new(alloc),
        }
    }

    /// Passes so many tokens. Err where they are more than there is room for in memory.
    pub(crate) fn skip(&mut self, count: usize) -> Result<(), AllocError>
        ensures { OnOk result (walked self.new ≡ skip count (walked self.old)) }
    {
        match self.at.checked_add(count) {
            Some(at) => {
                self.at = at;
                Ok(())
            }
            None => Err(AllocError),
        }
    }

    /// Passes a token that stands there or does not.
    pub(crate) fn skip_if(&mut self, stands: bool) -> Result<(), AllocError>
        ensures { OnOk result (walked self.new ≡ skip_if stands (walked self.old)) }
    {
        if stands { self.skip(1) } else { Ok(()) }
    }

    /// A node begins at the next token.
    pub(crate) fn begin(&mut self) -> Result<(), AllocError>
        ensures { OnOk result (walked self.new ≡ begin (walked self.old)) }
    {
        self.starts.push(self.at)?;
        Ok(())
    }

    /// A function ended at the last token.
    pub(crate) fn close(&mut self) -> Result<(), AllocError>
        ensures { OnOk result (walked self.new ≡ close (walked self.old)) }
    {
        self.closes.push(self.at.saturating_sub(1))?;
        Ok(())
    }
}

ghost use Rattle.std.specs.Prelude.{◌≡◌, map, IfOk};
ghost use Rattle.fact_values.specs.Facts.{targets_at};

use super::Facts;
use crate::keyed::{keys_of, map_keys};
use crate::{Holder, Obj, Target};
use base_core::{FnId, NoMemory, Sig};
use call_ctx::{Cell, Role};
use std::alloc::Global;

/// The lists take time like their length.
impl Facts {
    /// The cells that have a state, in order.
    pub fn cell_list(&self, alloc: Global) -> Result<Vec<Cell>, NoMemory>
        ensures { IfOk result (λ cells. cells.items ≡ map (λ e. e.0) self.now.lists.cells) }
    {
        map_keys(&self.cells, alloc)
    }

    /// The holders that have a target, in order.
    pub fn holder_list(&self, alloc: Global) -> Result<Vec<Holder>, NoMemory>
        ensures { IfOk result (λ holders. holders.items ≡ map (λ e. e.0) self.now.lists.targets) }
    {
        map_keys(&self.targets, alloc)
    }

    /// The targets of the holder, in order.
    pub fn target_list(&self, h: Holder, alloc: Global) -> Result<Vec<Target>, NoMemory>
        ensures { IfOk result (λ targets. targets.items ≡ targets_at self.now.lists h) }
    {
        match self.targets.get(&h) {
            None => Ok(Vec::new(alloc)),
            Some(targets) => keys_of(&targets.items, alloc),
        }
    }

    /// The signals with the functions that are installed for them, in order; [`Facts::installed_at`] tells how.
    pub fn installed_list(&self, alloc: Global) -> Result<Vec<(Sig, FnId)>, NoMemory>
        ensures { IfOk result (λ pairs. pairs.items ≡ map (λ e. e.0) self.now.lists.installed) }
    {
        map_keys(&self.installed, alloc)
    }

    /// The functions that threads start with, in order.
    pub fn thread_list(&self, alloc: Global) -> Result<Vec<FnId>, NoMemory>
        ensures { IfOk result (λ functions. functions.items ≡ self.now.lists.threads) }
    {
        keys_of(&self.threads, alloc)
    }

    /// The fork handlers, in order.
    pub fn fork_list(&self, alloc: Global) -> Result<Vec<(Role, FnId)>, NoMemory>
        ensures { IfOk result (λ handlers. handlers.items ≡ self.now.lists.forks) }
    {
        keys_of(&self.forks, alloc)
    }

    /// The stirred objects, in order.
    pub fn stirred_list(&self, alloc: Global) -> Result<Vec<Obj>, NoMemory>
        ensures { IfOk result (λ objects. objects.items ≡ self.now.lists.stirred) }
    {
        keys_of(&self.stirred, alloc)
    }
}

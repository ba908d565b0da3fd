ghost use Rattle.std.specs.Prelude.{◌≡◌, OnErr, IfOk};
ghost use Rattle.fact_values.specs.Facts.{view, consequence, IsFit, Adds, IsNewInstalled};

use super::Facts;
use crate::target_set::TargetSet;
use crate::{Held, Holder, Installed, Obj, Part, Target};
use abstract_values::State;
use base_core::{FnId, NoMemory, Sig};
use call_ctx::{Cell, Role};

impl Facts {
    fn add_state(&mut self, cell: Cell, state: &State) -> Result<bool, NoMemory>
        requires { IsFit self.old.lists.depth (consequence (Part.Cell cell) (Held.State state.now)) }
        ensures adds { IfOk result (λ grew. Adds (consequence (Part.Cell cell) (Held.State state.now)) grew self.old.lists self.new.lists) }
        ensures err { OnErr result (self.new.lists ≡ self.old.lists) }
    {
        let alloc = self.alloc;
        if let Some(held) = self.cells.get_mut(&cell) {
            return held.join(state);
        }
        let copied = state.copy(alloc)?;
        let Ok(_) = self.cells.insert(cell, copied) else {
            return Err(NoMemory);
        };
        Ok(true)
    }

    fn add_target(&mut self, holder: Holder, target: Target) -> Result<bool, NoMemory>
        requires { IsFit self.old.lists.depth (consequence (Part.Target holder target) Held.Nothing) }
        ensures adds { IfOk result (λ grew. Adds (consequence (Part.Target holder target) Held.Nothing) grew self.old.lists self.new.lists) }
        ensures err { OnErr result (self.new.lists ≡ self.old.lists) }
    {
        let alloc = self.alloc;
        if let Some(held) = self.targets.get_mut(&holder) {
            return held.insert(target);
        }
        let targets = TargetSet::of(alloc, target)?;
        let Ok(_) = self.targets.insert(holder, targets) else {
            return Err(NoMemory);
        };
        Ok(true)
    }

    /// How the function gets installed for the signal where it is not installed so.
    fn joined_for(&self, signal: Sig, function: FnId, installed: &Installed) -> Installed
        ensures { IsNewInstalled ((view self.now.lists).installed_at signal function) installed.now result }
    {
        match self.installed_at(signal, function) {
            None => *installed,
            Some(held) => held.join(installed),
        }
    }

    fn add_installed(
        &mut self,
        signal: Sig,
        function: FnId,
        installed: &Installed,
    ) -> Result<bool, NoMemory>
        requires { IsFit self.old.lists.depth (consequence (Part.Installed signal function) (Held.Installed installed.now)) }
        ensures adds { IfOk result (λ grew. Adds (consequence (Part.Installed signal function) (Held.Installed installed.now)) grew self.old.lists self.new.lists) }
        ensures err { OnErr result (self.new.lists ≡ self.old.lists) }
    {
        if self.holds_installed(signal, function, installed) {
            return Ok(false);
        }
        let joined = self.joined_for(signal, function, installed);
        let Ok(_) = self.installed.insert((signal, function), joined) else {
            return Err(NoMemory);
        };
        Ok(true)
    }

    fn add_thread(&mut self, function: FnId) -> Result<bool, NoMemory>
        requires { IsFit self.old.lists.depth (consequence (Part.Thread function) Held.Nothing) }
        ensures adds { IfOk result (λ grew. Adds (consequence (Part.Thread function) Held.Nothing) grew self.old.lists self.new.lists) }
        ensures err { OnErr result (self.new.lists ≡ self.old.lists) }
    {
        let Ok(grew) = self.threads.insert(function) else {
            return Err(NoMemory);
        };
        Ok(grew)
    }

    fn add_fork(&mut self, role: Role, function: FnId) -> Result<bool, NoMemory>
        requires { IsFit self.old.lists.depth (consequence (Part.Fork role function) Held.Nothing) }
        ensures adds { IfOk result (λ grew. Adds (consequence (Part.Fork role function) Held.Nothing) grew self.old.lists self.new.lists) }
        ensures err { OnErr result (self.new.lists ≡ self.old.lists) }
    {
        let Ok(grew) = self.forks.insert((role, function)) else {
            return Err(NoMemory);
        };
        Ok(grew)
    }

    fn add_stirred(&mut self, object: Obj) -> Result<bool, NoMemory>
        requires { IsFit self.old.lists.depth (consequence (Part.Stirred object) Held.Nothing) }
        ensures adds { IfOk result (λ grew. Adds (consequence (Part.Stirred object) Held.Nothing) grew self.old.lists self.new.lists) }
        ensures err { OnErr result (self.new.lists ≡ self.old.lists) }
    {
        let Ok(grew) = self.stirred.insert(object) else {
            return Err(NoMemory);
        };
        Ok(grew)
    }

    /// Become the least facts that hold it as well; true exactly where they grew. Without memory they stay.
    pub fn add(&mut self, p: &Part, h: &Held) -> Result<bool, NoMemory>
        requires { IsFit self.old.lists.depth (consequence p.now h.now) }
        ensures adds { IfOk result (λ grew. Adds (consequence p.now h.now) grew self.old.lists self.new.lists) }
        ensures err { OnErr result (self.new.lists ≡ self.old.lists) }
    {
        match p {
            Part::Cell(cell) => match h {
                Held::State(state) => self.add_state(*cell, state),
                _ => Ok(false),
            },
            Part::Target(holder, target) => self.add_target(*holder, *target),
            Part::Installed(signal, function) => match h {
                Held::Installed(installed) => self.add_installed(*signal, *function, installed),
                _ => Ok(false),
            },
            Part::Thread(function) => self.add_thread(*function),
            Part::Fork(role, function) => self.add_fork(*role, *function),
            Part::Stirred(object) => self.add_stirred(*object),
        }
    }
}

ghost use Rattle.std.specs.Prelude.{◌≡◌, ℕ, ◌≤◌, Bool};
ghost use Rattle.base_core.specs.declared.id.NodeId.{NodeId};
ghost use Rattle.call_ctx.specs.Contexts.{IsPushed, IsCalled, IsWithin, base_context, arrived_context, handling_context};

use crate::Sites;
use base_core::NodeId;

/// Whether a frame runs a function that `pthread_atfork` registered, or was called by one that does, and for which of
/// its parameters (POSIX.1-2017 XSH pthread_atfork).
#[derive(Clone, Copy, PartialEq, Eq, PartialOrd, Ord)]
pub enum Role {
    NoRole,
    Prepare,
    Parent,
    Child,
}

/// Whether the process is perhaps the child of a process that had several threads, confined to async-signal-safe
/// functions until it calls one of the exec family (POSIX.1-2017 XSH fork).
#[derive(Clone, Copy, PartialEq, Eq, PartialOrd, Ord)]
pub enum Side {
    /// It surely is not confined.
    Free,
    /// It perhaps is.
    Child,
}

/// What is kept of the way in which a frame came about. The fields stand in the order in which contexts are compared.
#[derive(Clone, Copy, PartialEq, Eq, PartialOrd, Ord)]
pub struct Ctx {
    /// The innermost signal at or below is one of a hardware fault.
    pub fault: bool,
    /// The side on which the function was entered.
    pub entered: Side,
    pub role: Role,
    /// A signal at or below interrupted an unsafe function, or the exit processing.
    pub over: bool,
    /// A signal-catching function runs at or below.
    pub handler: bool,
    pub sites: Sites,
}

/// The context with one more call site, of which the last `depth` are kept; the rest of it stays.
pub fn push(c: &Ctx, site: NodeId, depth: u8) -> Ctx
    requires some { 1 ≤ depth }
    requires most { depth ≤ 2 }
    ensures { IsPushed c.now site depth result }
{
    Ctx {
        sites: c.sites.with(site, depth),
        ..*c
    }
}

impl Ctx {
    /// The context of the initial call of `main`, and of a thread's function, entered on this side.
    pub fn base(entered: Side) -> Self
        ensures { result ≡ base_context entered }
    {
        Ctx {
            fault: false,
            entered,
            role: Role::NoRole,
            over: false,
            handler: false,
            sites: Sites::new(),
        }
    }

    /// The context of a function that is called at a site, entered on this side.
    pub fn called(&self, site: NodeId, depth: u8, entered: Side) -> Self
        requires some { 1 ≤ depth }
        requires most { depth ≤ 2 }
        ensures { IsCalled self.now site depth entered result }
    {
        Ctx {
            entered,
            ..push(self, site, depth)
        }
    }

    /// The context of a signal-catching function that interrupts a frame in this context. `inside` tells whether that
    /// frame is in an unsafe function or in the exit processing, `fault` whether the signal is one of a hardware fault.
    pub fn arrived(&self, inside: bool, fault: bool, entered: Side) -> Self
        ensures { result ≡ arrived_context self.now inside fault entered }
    {
        Ctx {
            fault,
            entered,
            role: Role::NoRole,
            over: self.over || inside,
            handler: true,
            sites: Sites::new(),
        }
    }

    /// The context of a fork handler of a fork in this context.
    pub fn handling(&self, role: Role, entered: Side) -> Self
        ensures { result ≡ handling_context self.now role entered }
    {
        Ctx {
            entered,
            role,
            sites: Sites::new(),
            ..*self
        }
    }
}

/// Each context of a frame keeps at most so many sites as are kept of calls.
pub fn sites_are_few()
    ensures base { (depth : ℕ) (entered : Side) → IsWithin depth (base_context entered) }
    ensures pushed { (depth : ℕ) (c d : Ctx) (site : NodeId) → IsPushed c site depth d → IsWithin depth d }
    ensures called { (depth : ℕ) (c d : Ctx) (site : NodeId) (entered : Side) → IsCalled c site depth entered d → IsWithin depth d }
    ensures arrived { (depth : ℕ) (c : Ctx) (inside fault : Bool) (entered : Side) → IsWithin depth (arrived_context c inside fault entered) }
    ensures handling { (depth : ℕ) (c : Ctx) (role : Role) (entered : Side) → IsWithin depth (handling_context c role entered) }
{}

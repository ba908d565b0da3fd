ghost use Rattle.std.specs.Prelude.{refl};
ghost use Rattle.std.specs.Cmp.{partial_equiv_from_equiv};
ghost use Rattle.std.specs.Ordering.{as_partial_cmp, eq_by_cmp};
ghost use Rattle.fact_values.specs.Objects.{obj_cmp, holder_cmp, target_cmp};
ghost use Rattle.fact_values.specs.ByNumbers.{obj_equiv, obj_partial, holder_equiv, holder_partial, target_equiv, target_partial};

use base_core::{FnId, NodeId, VarId};
use call_ctx::Ctx;
use std::cmp::Ordering;

/// An object as facts speak of it: where it came from, and for some the context of the frame that made it. Objects are
/// compared by their kind, then their number, then their context.
#[derive(Clone, Copy, Ord)]
pub enum Obj {
    /// The object of a variable; for a static one in the context of main's first frame.
    Variable { variable: VarId, ctx: Ctx },
    /// The array of a string literal (C11 6.4.5).
    Text(NodeId),
    /// What the call of this node allocated.
    Allocated { call: NodeId, ctx: Ctx },
    /// An object of the library: a function's own, by its place in the sorted table, and behind all places those of
    /// `stdin`, `stdout` and `stderr`.
    Library(u32),
    /// What the pointers that a signal-catching function gets point to (POSIX.1-2017 XSH sigaction).
    Arrival { handler: FnId, ctx: Ctx },
    /// What the second argument of `main` points to.
    Arguments,
}

impl PartialEq for Obj {
    ghost eq = { eq_by_cmp obj_cmp };

    ghost laws = { partial_equiv_from_equiv obj_equiv };

    fn eq(&self, other: &Obj) -> bool {
        self.cmp(other).is_eq()
    }
}

impl Eq for Obj {
    ghost laws = { obj_equiv };
}

impl PartialOrd for Obj {
    ghost partial_cmp = { as_partial_cmp obj_cmp };

    ghost laws = { obj_partial };

    fn partial_cmp(&self, other: &Obj) -> Option<Ordering> {
        Some(self.cmp(other))
    }
}

#[derived]
impl Ord for Obj {
    ghost matches_eq = { λ a b. refl };
}

/// What may hold a pointer or a function.
#[derive(Clone, Copy, Ord)]
pub enum Holder {
    Object(Obj),
    /// The value of a node, in a context.
    Node(NodeId, Ctx),
}

impl PartialEq for Holder {
    ghost eq = { eq_by_cmp holder_cmp };

    ghost laws = { partial_equiv_from_equiv holder_equiv };

    fn eq(&self, other: &Holder) -> bool {
        self.cmp(other).is_eq()
    }
}

impl Eq for Holder {
    ghost laws = { holder_equiv };
}

impl PartialOrd for Holder {
    ghost partial_cmp = { as_partial_cmp holder_cmp };

    ghost laws = { holder_partial };

    fn partial_cmp(&self, other: &Holder) -> Option<Ordering> {
        Some(self.cmp(other))
    }
}

#[derived]
impl Ord for Holder {
    ghost matches_eq = { λ a b. refl };
}

/// What a pointer may point to.
#[derive(Clone, Copy, Ord)]
pub enum Target {
    Object(Obj),
    Function(FnId),
}

impl PartialEq for Target {
    ghost eq = { eq_by_cmp target_cmp };

    ghost laws = { partial_equiv_from_equiv target_equiv };

    fn eq(&self, other: &Target) -> bool {
        self.cmp(other).is_eq()
    }
}

impl Eq for Target {
    ghost laws = { target_equiv };
}

impl PartialOrd for Target {
    ghost partial_cmp = { as_partial_cmp target_cmp };

    ghost laws = { target_partial };

    fn partial_cmp(&self, other: &Target) -> Option<Ordering> {
        Some(self.cmp(other))
    }
}

#[derived]
impl Ord for Target {
    ghost matches_eq = { λ a b. refl };
}

ghost use Rattle.std.specs.Prelude.{◌≡◌, ℕ, ◌<◌, ◌≤◌, ◌∷◌, ◌++◌, [], length, slice_get};
ghost use Rattle.call_ctx.specs.Sites.{sites_of, last_of};

use base_core::NodeId;

/// The nodes of the last calls that led to a frame: none, one or two of them.
#[derive(Clone, Copy, PartialEq, Eq, PartialOrd, Ord)]
pub enum Sites {
    Empty,
    One(NodeId),
    Two { older: NodeId, newer: NodeId },
}

impl Sites {
    /// No call sites.
    pub fn new() -> Self
        ensures { sites_of result ≡ [] }
    {
        Sites::Empty
    }

    /// How many sites there are.
    pub fn len(&self) -> usize
        ensures { result ≡ length (sites_of self.now) }
    {
        match self {
            Sites::Empty => 0,
            Sites::One(_) => 1,
            Sites::Two { .. } => 2,
        }
    }

    /// The k-th site, the oldest first; None exactly from their number on.
    pub fn at(&self, k: usize) -> Option<NodeId>
        ensures { result ≡ slice_get (sites_of self.now) k }
    {
        match (self, k) {
            (Sites::One(site), 0) => Some(*site),
            (Sites::Two { older, .. }, 0) => Some(*older),
            (Sites::Two { newer, .. }, 1) => Some(*newer),
            _ => None,
        }
    }

    /// The last `depth` of these sites and a newer one.
    pub fn with(self, site: NodeId, depth: u8) -> Self
        requires some { 1 ≤ depth }
        requires most { depth ≤ 2 }
        ensures { sites_of result ≡ last_of depth (sites_of self ++ site ∷ []) }
    {
        if depth < 2 {
            return Sites::One(site);
        }
        match self {
            Sites::Empty => Sites::One(site),
            Sites::One(older) => Sites::Two { older, newer: site },
            Sites::Two { newer, .. } => Sites::Two {
                older: newer,
                newer: site,
            },
        }
    }
}

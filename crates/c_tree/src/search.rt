ghost use Rattle.std.specs.Prelude.{◌<◌, ◌+◌, ◌^◌};

use crate::node::NodeRef;

/// A search for a node by its number: how many nodes are left to pass, how many functions were passed, and the node once
/// it is found.
#[derive(Drop)]
pub(crate) struct Search<'a> {
    pub(crate) left: u32,
    pub(crate) functions: u32,
    pub(crate) found: Option<NodeRef<'a>>,
    ghost in_range: { functions + left < 2 ^ 32 },
}

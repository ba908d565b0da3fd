use base_core::NodeId;
use call_ctx::{Ctx, Side, push};
use std::test::Fail;

/// Whether the context keeps these two sites alone.
fn has_sites(c: &Ctx, older: u32, newer: u32) -> bool {
    c.sites.len() == 2
        && c.sites.at(0) == Some(NodeId(older))
        && c.sites.at(1) == Some(NodeId(newer))
        && c.sites.at(2).is_none()
}

#[test]
fn the_last_sites_are_kept(rt: HostRuntime) -> Result<(), Fail> {
    let over = Ctx::base(Side::Free).arrived(true, false, Side::Child);
    let first = push(&over, NodeId(3), 2);
    let second = push(&first, NodeId(4), 2);
    let third = push(&second, NodeId(5), 2);
    assert!(rt; has_sites(&third, 4, 5));
    Ok(())
}

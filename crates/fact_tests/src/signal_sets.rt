use base_core::Sig;
use sig_set::SigSet;
use std::test::Fail;

/// The set of the signals of these numbers.
fn set_of(numbers: &[u8]) -> Option<SigSet> {
    let mut set = SigSet::empty();
    for number in numbers {
        set = set.with(Sig::new(*number)?);
    }
    Some(set)
}

#[test]
fn the_operations_at_small_sets(rt: HostRuntime) -> Result<(), Fail> {
    let a = set_of(&[1, 2, 9, 28]).ok_or("a number is out of range")?;
    let b = set_of(&[28, 3, 2]).ok_or("a number is out of range")?;
    let union = set_of(&[1, 2, 3, 9, 28]).ok_or("a number is out of range")?;
    let meet = set_of(&[2, 28]).ok_or("a number is out of range")?;
    let minus = set_of(&[1, 9]).ok_or("a number is out of range")?;
    assert_eq!(rt; a.union(b), union);
    assert_eq!(rt; a.meet(b), meet);
    assert_eq!(rt; a.minus(b), minus);
    assert_eq!(rt; a.minus(a), SigSet::empty());
    for (less, more, is_below) in [
        (meet, a, true),
        (a, a, true),
        (SigSet::empty(), b, true),
        (union, SigSet::full(), true),
        (a, b, false),
        (b, meet, false),
        (SigSet::full(), union, false),
    ] {
        assert_eq!(rt; less.below(more), is_below);
    }
    Ok(())
}

#[test]
fn members_come_and_go(rt: HostRuntime) -> Result<(), Fail> {
    let first = Sig::named(b"SIGABRT").ok_or("no such signal")?;
    let last = Sig::named(b"SIGXFSZ").ok_or("no such signal")?;
    let alone = SigSet::empty().with(last);
    assert!(rt; alone.has(last));
    assert!(rt; !alone.has(first));
    assert!(rt; SigSet::full().has(first));
    assert!(rt; !SigSet::full().without(first).has(first));
    assert!(rt; SigSet::full().without(first).has(last));
    assert_eq!(rt; alone.without(first), alone);
    assert_eq!(rt; alone.without(last), SigSet::empty());
    Ok(())
}

use c_scopes::Scope;
use std::alloc::AllocError;
use std::test::Fail;

/// Whether the names stand for these, in this order: what is said of the innermost block, and of all.
fn says(scope: &Scope, rows: &[(&[u8], Option<u32>, Option<u32>)]) -> bool {
    for (name, here, all) in rows {
        if scope.declared_here(name) != *here || scope.look_up(name) != *all {
            return false;
        }
    }
    true
}

/// Three blocks, in which the inner ones declare again what the outer ones have.
fn declare_all(scope: &mut Scope) -> Result<(), AllocError> {
    scope.declare(b"a", 1)?;
    scope.declare(b"b", 2)?;
    scope.enter()?;
    scope.declare(b"a", 3)?;
    scope.enter()?;
    scope.declare(b"a", 4)?;
    scope.declare(b"a", 5)?;
    scope.declare(b"c", 6)
}

/// Whether each block hides the outer ones until it is left.
fn hides(scope: &mut Scope) -> bool {
    let third = says(
        scope,
        &[
            (b"a", Some(5), Some(5)),
            (b"b", None, Some(2)),
            (b"c", Some(6), Some(6)),
        ],
    );
    scope.leave();
    let second = says(
        scope,
        &[
            (b"a", Some(3), Some(3)),
            (b"b", None, Some(2)),
            (b"c", None, None),
        ],
    );
    scope.leave();
    let first = says(
        scope,
        &[
            (b"a", Some(1), Some(1)),
            (b"b", Some(2), Some(2)),
            (b"", None, None),
        ],
    );
    scope.leave();
    third
        && second
        && first
        && says(scope, &[(b"a", None, None), (b"b", None, None)])
        && scope.depth() == 0
}

#[test]
fn inner_blocks_hide_outer_ones(rt: HostRuntime) -> Result<(), Fail> {
    let mut scope = Scope::new(rt.alloc());
    declare_all(&mut scope)?;
    assert!(rt; hides(&mut scope));
    Ok(())
}

/// Whether a name that is declared around the innermost block is hidden in it, and stands when it ends.
fn stands_around(scope: &mut Scope) -> Result<bool, AllocError> {
    scope.declare(b"a", 1)?;
    scope.enter()?;
    scope.declare(b"b", 2)?;
    scope.declare(b"a", 3)?;
    scope.declare_around(b"a", 4)?;
    scope.declare_around(b"c", 5)?;
    let inside = says(
        scope,
        &[
            (b"a", Some(3), Some(3)),
            (b"b", Some(2), Some(2)),
            (b"c", None, Some(5)),
        ],
    );
    scope.leave();
    Ok(
        inside
            && says(
                scope,
                &[
                    (b"a", Some(4), Some(4)),
                    (b"b", None, None),
                    (b"c", Some(5), Some(5)),
                ],
            ),
    )
}

#[test]
fn a_name_is_declared_around_a_block(rt: HostRuntime) -> Result<(), Fail> {
    let mut scope = Scope::new(rt.alloc());
    assert!(rt; stands_around(&mut scope)?);
    Ok(())
}

ghost use Rattle.std.specs.Prelude.{◌≡◌, length, OnOk};

use c_judgements::Growing;
use std::alloc::AllocError;
use std::test::Fail;

/// The nodes of a tree whose root is 9 and has the parts 1, 2 over 3 and 4, and 5.
fn grow(list: &mut Growing<u32>) -> Result<(), AllocError>
    requires { length list.old ≡ 1 }
    ensures { OnOk result (length list.new ≡ 1) }
{
    list.open(0)?;
    list.push(1)?;
    list.open(0)?;
    list.push(3)?;
    list.push(4)?;
    list.close(2);
    list.push(5)?;
    list.close(9);
    Ok(())
}

#[test]
fn a_node_stands_before_its_parts(rt: HostRuntime) -> Result<(), Fail> {
    let mut list = Growing::new(rt.alloc());
    grow(&mut list)?;
    assert_eq!(rt; list.len(), 6);
    assert_eq!(rt; list.finish().as_slice(), [9, 1, 2, 3, 4, 5].as_slice());
    Ok(())
}

use base_core::{Lexeme, NodeId, Place};
use c_tree::{Function, Item, NodeRef, Params, Program, Stmt, Storage};
use sqlite_items::Items;
use std::alloc::{AllocError, Global};

const START: Place = Place {
    file: 0,
    line: 1,
    column: 1,
};

const BRACE: Place = Place {
    file: 0,
    line: 1,
    column: 9,
};

/// The program `f() { }`, by its parts.
fn empty_function(alloc: Global, name: Lexeme) -> Result<Program, AllocError> {
    let function = Function {
        storage: Storage::Nothing,
        specs: Items::new(alloc),
        stars: Items::new(alloc),
        name,
        params: Params {
            items: Items::new(alloc),
            word: false,
        },
        body: Stmt::Block(Items::new(alloc)),
    };
    let items = Items::from_vec(vec![in alloc; Item::Function(function)]?);
    let places = Items::from_slice(alloc, &[START, START, BRACE])?;
    let closes = Items::from_slice(alloc, &[BRACE])?;
    Ok(Program::new(items, places, closes, BRACE, Items::new(alloc)))
}

#[test]
fn finds_each_node(rt: HostRuntime) -> Result<(), AllocError> {
    let Ok(name) = Lexeme::new(rt.alloc(), b"f") else {
        return Err(AllocError);
    };
    let program = empty_function(rt.alloc(), name)?;
    assert_eq!(rt; program.count(), 3);
    assert!(rt; matches!(program.node(NodeId(0)), Some(NodeRef::Program(_))));
    assert!(rt; matches!(program.node(NodeId(1)), Some(NodeRef::Function(_))));
    assert!(rt; matches!(program.node(NodeId(2)), Some(NodeRef::Stmt(_))));
    assert!(rt; program.node(NodeId(3)).is_none());
    assert!(rt; program.close(NodeId(0)).is_none());
    assert!(rt; program.close(NodeId(1)) == Some(BRACE));
    assert!(rt; program.place(NodeId(1)) == Some(START));
    assert!(rt; program.place(NodeId(3)).is_none());
    assert!(rt; program.file(0).is_none() && program.file(1).is_none());
    assert_eq!(rt; program.items().len(), 1);
    Ok(())
}

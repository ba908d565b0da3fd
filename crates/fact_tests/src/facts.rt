use abstract_values::{AbsSet, State};
use base_core::{FnId, NoMemory, NodeId, Phase, Pos, Sig};
use call_ctx::{Cell, Ctx, Role, Side};
use fact_values::{Consequences, Facts, Held, Holder, Installed, Obj, Part, Target};
use std::alloc::Global;
use std::test::Fail;

#[test]
fn adding_succeeds(rt: HostRuntime) -> Result<(), Fail> {
    let mut facts = Facts::new(rt.alloc(), 2);
    let holder = Holder::Object(Obj::Text(NodeId(3)));
    let function = Part::Target(holder, Target::Function(FnId(1)));
    let pointer = Part::Target(holder, Target::Object(Obj::Arguments));
    let stirred = Part::Stirred(Obj::Text(NodeId(3)));
    let child = Part::Fork(Role::Child, FnId(2));
    assert!(rt; facts.add(&function, &Held::Nothing).is_ok());
    assert!(rt; facts.add(&pointer, &Held::Nothing).is_ok());
    assert!(rt; facts.add(&Part::Thread(FnId(2)), &Held::Nothing).is_ok());
    assert!(rt; facts.add(&child, &Held::Nothing).is_ok());
    assert!(rt; facts.add(&stirred, &Held::Nothing).is_ok());
    Ok(())
}

/// Whether each list of facts is made.
fn has_lists(facts: &Facts, alloc: Global) -> bool {
    facts.cell_list(alloc).is_ok()
        && facts.holder_list(alloc).is_ok()
        && facts.installed_list(alloc).is_ok()
        && facts.thread_list(alloc).is_ok()
        && facts.fork_list(alloc).is_ok()
        && facts.stirred_list(alloc).is_ok()
}

#[test]
fn lists_are_made(rt: HostRuntime) -> Result<(), Fail> {
    let facts = Facts::new(rt.alloc(), 1);
    let mut out = Consequences::new(rt.alloc());
    let mut state = State::new(rt.alloc());
    let cell = Cell {
        pos: Pos {
            node: NodeId(7),
            phase: Phase::Leave,
        },
        ctx: Ctx::base(Side::Free),
        side: Side::Free,
    };
    assert!(rt; out.push(Part::Thread(FnId(1)), Held::Nothing).is_ok());
    assert!(rt; facts.copy(cell, &mut state).is_ok());
    assert!(rt; has_lists(&facts, rt.alloc()));
    Ok(())
}

/// A cell.
fn some_cell() -> Cell {
    Cell {
        pos: Pos {
            node: NodeId(7),
            phase: Phase::Leave,
        },
        ctx: Ctx::base(Side::Free),
        side: Side::Free,
    }
}

#[test]
#[tactic(auto, using(abstract_values::proofs::Laws::unknown_formed))]
fn a_state_is_added_once(rt: HostRuntime) -> Result<(), Fail> {
    let alloc = rt.alloc();
    let mut facts = Facts::new(alloc, 2);
    let part = Part::Cell(some_cell());
    let state = Held::State(State::new(alloc));
    let first = facts.add(&part, &state)?;
    let again = facts.add(&part, &state)?;
    let mut copied = State::new(alloc);
    let there = facts.copy(some_cell(), &mut copied)?;
    assert!(rt; first && !again && there && facts.cells() == 1);
    Ok(())
}

#[test]
#[tactic(auto, using(abstract_values::proofs::Sets::any_set_some))]
fn a_handler_is_added_once(rt: HostRuntime) -> Result<(), Fail> {
    let mut facts = Facts::new(rt.alloc(), 2);
    let signal = Sig::new(9).ok_or("no signal")?;
    let part = Part::Installed(signal, FnId(1));
    let installed = Held::Installed(Installed {
        mask: AbsSet::any(),
        deferred: true,
    });
    let first = facts.add(&part, &installed)?;
    let again = facts.add(&part, &installed)?;
    let there = facts.installed_at(signal, FnId(1)).is_some();
    let other = facts.installed_at(signal, FnId(2)).is_some();
    assert!(rt; first && !again && facts.installed(0).is_some() && facts.installed(1).is_none());
    assert!(rt; there && !other);
    Ok(())
}

/// An object of the library, as a target.
fn library(place: u32) -> Target {
    Target::Object(Obj::Library(place))
}

/// Adds that the arguments point to these objects of the library, and gives how many were new.
fn add_libraries(facts: &mut Facts, places: &[u32]) -> Result<u32, NoMemory> {
    let mut new = 0u32;
    for place in places {
        let target = Target::Object(Obj::Library(*place));
        let part = Part::Target(Holder::Object(Obj::Arguments), target);
        if facts.add(&part, &Held::Nothing)? {
            new = new.wrapping_add(1);
        }
    }
    Ok(new)
}

/// Whether the list has the objects of the library at 1, 5, 7 and 9.
fn are_four(list: &[Target]) -> bool {
    list.len() == 4
        && list.get(0) == Some(&library(1))
        && list.get(1) == Some(&library(5))
        && list.get(2) == Some(&library(7))
        && list.get(3) == Some(&library(9))
}

#[test]
fn targets_stand_in_order(rt: HostRuntime) -> Result<(), Fail> {
    let alloc = rt.alloc();
    let mut facts = Facts::new(alloc, 2);
    let holder = Holder::Object(Obj::Arguments);
    let new = add_libraries(&mut facts, &[5, 1, 9, 1, 7])?;
    let last = facts.target(holder, 3) == Some(library(9)) && facts.target(holder, 4).is_none();
    let list = facts.target_list(holder, alloc)?;
    assert!(rt; new == 4 && last && are_four(&list));
    Ok(())
}

// The version table: filled, emptied and filled again; two chains interleaved; pruning in place.
use crate::parts::*;
use chain::version::Version;
use fields::{Fields, Patch};
use slot_table::SlotTable;
use std::alloc::AllocError;
use std::process::Abort;
use std::test::Fail;
use version_table::prune::{prune_behind, prune_chain};
use version_table::table::VersionTable;
use version_table::walk::{lead_back, write_times};

// Two chains over three slots.
fn small(rt: HostRuntime) -> Result<VersionTable<Patch>, Fail> {
    Ok(VersionTable::new(rt.alloc(), 2, 3, version(0, 0))?)
}

// The times of a chain, at the front of four places.
fn kept(rt: &impl Abort, table: &VersionTable<Patch>, r: usize) -> [u32; 4] {
    let mut out = [0; 4];
    let n = table.len(r);
    assert!(rt; n <= 4);
    assert_eq!(rt; write_times(table.chain(r), &mut out), n);
    out
}

#[test]
fn filled_emptied_and_filled_again(rt: HostRuntime) -> Result<(), Fail> {
    let mut table = small(rt)?;
    assert!(rt; table.push(0, version(1, 10)));
    assert!(rt; table.push(0, version(2, 20)));
    assert!(rt; !table.is_full());
    assert!(rt; table.push(0, version(3, 30)));
    assert!(rt; table.is_full());
    assert!(rt; !table.push(1, version(4, 40)));
    assert_eq!(rt; kept(&rt, &table, 0), [3, 2, 1, 0]);
    table.clear(0);
    assert_eq!(rt; table.used(), 0);
    assert!(rt; table.push(1, version(5, 50)));
    assert!(rt; table.push(1, version(6, 60)));
    assert!(rt; table.push(1, version(7, 70)));
    assert!(rt; !table.push(0, version(8, 80)));
    assert_eq!(rt; kept(&rt, &table, 1), [7, 6, 5, 0]);
    assert_eq!(rt; table.len(0), 0);
    Ok(())
}

#[test]
fn two_chains_interleaved(rt: HostRuntime) -> Result<(), Fail> {
    let mut table = small(rt)?;
    assert!(rt; table.push(0, version(1, 10)));
    assert!(rt; table.push(1, version(2, 20)));
    assert!(rt; table.push(0, version(3, 30)));
    assert_eq!(rt; kept(&rt, &table, 0), [3, 1, 0, 0]);
    assert_eq!(rt; kept(&rt, &table, 1), [2, 0, 0, 0]);
    assert!(rt; table.pop(0).is_some());
    assert!(rt; table.push(1, version(4, 40)));
    assert_eq!(rt; kept(&rt, &table, 0), [1, 0, 0, 0]);
    assert_eq!(rt; kept(&rt, &table, 1), [4, 2, 0, 0]);
    assert!(rt; table.replace(1, version(5, 50)));
    assert_eq!(rt; kept(&rt, &table, 1), [5, 2, 0, 0]);
    assert_eq!(rt; table.used(), 3);
    Ok(())
}

// A chain number out of range answers as an empty chain.
#[test]
fn no_such_chain(rt: HostRuntime) -> Result<(), Fail> {
    let mut table = small(rt)?;
    assert!(rt; !table.push(2, version(1, 10)));
    assert!(rt; table.pop(2).is_none());
    assert!(rt; table.front(2).is_none());
    assert!(rt; !table.replace(2, version(1, 10)));
    table.clear(2);
    assert_eq!(rt; table.len(2), 0);
    assert_eq!(rt; table.used(), 0);
    Ok(())
}

// A change that is copied, but whose clone finds no memory.
#[derive(Copy)]
struct Grudging {
    value: u32,
}

impl Clone for Grudging {
    fn clone(&self) -> Result<Grudging, AllocError> {
        Err(AllocError)
    }
}

// A kind's changes are copied into a new table's slots, and not cloned.
#[test]
fn slots_are_copied(rt: HostRuntime) -> Result<(), Fail> {
    let blank = Version {
        time: 0,
        change: Grudging { value: 0 },
    };
    let mut table = VersionTable::new(rt.alloc(), 2, 3, blank)?;
    let change = Grudging { value: 7 };
    assert!(rt; table.push(1, Version { time: 2, change }));
    assert_eq!(rt; table.pop(1).map(|version| version.change.value), Some(7));
    Ok(())
}

// 9 {0: 30}, 6 {0: 20}, 4 {0: 10} from 40; open 3, 3, 8 leaves 9 {0: 30} and 6 {0: 10}; the other chain stays.
#[test]
fn pruned_in_place(rt: HostRuntime) -> Result<(), Fail> {
    let mut table = VersionTable::new(rt.alloc(), 2, 4, version(0, 0))?;
    assert!(rt; table.push(0, version(4, 10)));
    assert!(rt; table.push(1, version(5, 50)));
    assert!(rt; table.push(0, version(6, 20)));
    assert!(rt; table.push(0, version(9, 30)));
    let registry = opened(&[3, 8, 3])?;
    prune_chain::<Fields, SlotTable>(&mut table, 0, &registry, row(40));
    assert_eq!(rt; kept(&rt, &table, 0), [9, 6, 0, 0]);
    assert_eq!(rt; kept(&rt, &table, 1), [5, 0, 0, 0]);
    assert_eq!(rt; table.used(), 3);
    let at_8 = lead_back::<Fields>(table.chain(0), 8, row(40));
    assert_eq!(rt; at_8.values, row(30).values);
    let at_3 = lead_back::<Fields>(table.chain(0), 3, row(40));
    assert_eq!(rt; at_3.values, row(10).values);
    Ok(())
}

// A holder's change 0 {0: 40} before the same chain, from 50: open 5 leaves it and 9 {0: 20}; nothing open leaves it alone.
#[test]
fn pruned_behind_a_holder(rt: HostRuntime) -> Result<(), Fail> {
    let mut table = VersionTable::new(rt.alloc(), 1, 4, version(0, 0))?;
    assert!(rt; table.push(0, version(4, 10)));
    assert!(rt; table.push(0, version(6, 20)));
    assert!(rt; table.push(0, version(9, 30)));
    assert!(rt; table.push(0, version(0, 40)));
    let registry = opened(&[5])?;
    prune_behind::<Fields, SlotTable>(&mut table, 0, &registry, row(50));
    assert_eq!(rt; kept(&rt, &table, 0), [0, 9, 0, 0]);
    let mut behind = table.chain(0);
    assert!(rt; behind.next().is_some());
    let finished = lead_back::<Fields>(behind, 5, row(40));
    assert_eq!(rt; finished.values, row(20).values);
    let shut = opened(&[])?;
    prune_behind::<Fields, SlotTable>(&mut table, 0, &shut, row(50));
    assert_eq!(rt; table.used(), 1);
    prune_chain::<Fields, SlotTable>(&mut table, 0, &shut, row(50));
    assert_eq!(rt; table.used(), 0);
    Ok(())
}

// Limits: a table of one version, the clock's last time, a full registry, lists too short, and the order of checks.
use crate::scene::{by_registry, by_store, play, row3, set3, x};
use history::call::{Call, Outcome};
use slot_table::SlotTable;
use std::test::Fail;
use store::sizes::Sizes;

const LAST: u32 = 4294967295;

// One version: a second record finds 7, the held one takes more edits, and a dropped version is used again.
#[test]
fn a_table_of_one_version(rt: HostRuntime) -> Result<(), Fail> {
    let scene = [
        x(Call::Begin, Outcome::Began(1)),
        x(set3(1, 0, 5), Outcome::Changed),
        by_store(set3(1, 1, 5), 7, 1),
        x(set3(1, 0, 6), Outcome::Changed),
        x(Call::InUse, Outcome::InUse(1)),
        x(Call::Abandon(1), Outcome::Abandoned(1)),
        x(Call::Begin, Outcome::Began(2)),
        x(set3(2, 1, 5), Outcome::Changed),
        x(Call::Commit(2), Outcome::Committed(3, 1)),
        x(Call::InUse, Outcome::InUse(0)),
        x(Call::Begin, Outcome::Began(4)),
        x(set3(4, 0, 1), Outcome::Changed),
        x(Call::Commit(4), Outcome::Committed(5, 1)),
    ];
    let Ok(sizes) = Sizes::check(2, 1, 0) else {
        return Err(Fail::new("sizes"));
    };
    let mut list = [0; 1];
    assert_eq!(rt;
        play::<SlotTable>(rt.alloc(), sizes, &scene, &mut list)?,
        13
    );
    Ok(())
}

// At the last time no writer begins, and one that holds a record cannot commit; it can abandon.
#[test]
fn the_clock_at_its_limit(rt: HostRuntime) -> Result<(), Fail> {
    let scene = [
        x(Call::Begin, Outcome::Began(LAST)),
        by_store(Call::Begin, 9, 4294967295),
        x(set3(LAST, 0, 5), Outcome::Changed),
        by_store(Call::Commit(LAST), 9, 4294967295),
        x(Call::Look(LAST, 0), row3(5)),
        x(Call::Abandon(LAST), Outcome::Abandoned(1)),
        by_registry(Call::Commit(LAST), 4, 4294967295),
        x(Call::Open, Outcome::Opened(LAST)),
        x(Call::Commit(LAST), Outcome::Committed(LAST, 0)),
    ];
    let Ok(sizes) = Sizes::check(1, 1, 4294967294) else {
        return Err(Fail::new("sizes"));
    };
    let mut list = [0; 1];
    assert_eq!(rt; play::<SlotTable>(rt.alloc(), sizes, &scene, &mut list)?, 9);
    Ok(())
}

// The slot table has eight leases. At the clock's limit Begin says 9 before 8.
#[test]
fn capacity_reached(rt: HostRuntime) -> Result<(), Fail> {
    let scene = [
        x(Call::Open, Outcome::Opened(LAST)),
        x(Call::Open, Outcome::Opened(LAST)),
        x(Call::Open, Outcome::Opened(LAST)),
        x(Call::Open, Outcome::Opened(LAST)),
        x(Call::Open, Outcome::Opened(LAST)),
        x(Call::Open, Outcome::Opened(LAST)),
        x(Call::Open, Outcome::Opened(LAST)),
        x(Call::Open, Outcome::Opened(LAST)),
        by_registry(Call::Open, 8, 8),
        by_store(Call::Begin, 9, 4294967295),
        x(Call::Close(LAST), Outcome::Closed),
        x(Call::Open, Outcome::Opened(LAST)),
    ];
    let Ok(sizes) = Sizes::check(1, 1, 4294967295) else {
        return Err(Fail::new("sizes"));
    };
    let mut list = [0; 1];
    assert_eq!(rt;
        play::<SlotTable>(rt.alloc(), sizes, &scene, &mut list)?,
        12
    );
    Ok(())
}

// The list has one place: two held records want two, one is written, and then none is left.
#[test]
fn lists_too_short(rt: HostRuntime) -> Result<(), Fail> {
    let scene = [
        x(Call::Begin, Outcome::Began(1)),
        x(set3(1, 0, 5), Outcome::Changed),
        x(set3(1, 2, 5), Outcome::Changed),
        by_store(Call::Held(1), 10, 2),
        x(Call::Abandon(1), Outcome::Abandoned(2)),
        x(Call::Begin, Outcome::Began(2)),
        x(set3(2, 2, 5), Outcome::Changed),
        x(Call::Held(2), Outcome::Held(1)),
        by_store(Call::Held(2), 10, 1),
        x(Call::Kept(0), Outcome::Kept(0)),
    ];
    let Ok(sizes) = Sizes::check(3, 2, 0) else {
        return Err(Fail::new("sizes"));
    };
    let mut list = [9; 1];
    assert_eq!(rt;
        play::<SlotTable>(rt.alloc(), sizes, &scene, &mut list)?,
        10
    );
    assert_eq!(rt; list, [2]);
    Ok(())
}

// Where a record and a lease are both missing, the record comes first.
#[test]
fn three_before_four(rt: HostRuntime) -> Result<(), Fail> {
    let scene = [
        by_store(Call::Read(9, 1), 3, 1),
        by_store(Call::Look(9, 18446744073709551615), 3, 18446744073709551615),
        by_store(set3(9, 1, 5), 3, 1),
        by_store(Call::Kept(1), 3, 1),
        by_registry(Call::Read(9, 0), 4, 9),
        by_registry(Call::Look(9, 0), 4, 9),
        by_registry(set3(9, 0, 5), 4, 9),
        x(Call::Held(9), Outcome::Held(0)),
    ];
    let Ok(sizes) = Sizes::check(1, 1, 0) else {
        return Err(Fail::new("sizes"));
    };
    let mut list = [0; 1];
    assert_eq!(rt; play::<SlotTable>(rt.alloc(), sizes, &scene, &mut list)?, 8);
    Ok(())
}

// Writers: conflicts, abandoned changes, and a writer whose lease was closed.
use crate::scene::{by_registry, by_store, play, row3, set3, x};
use history::call::{Call, Outcome};
use slot_table::SlotTable;
use std::test::Fail;
use store::sizes::Sizes;

// While 1 holds the record 2 is refused with 5; once 1 has committed at 3 it is refused with 6.
#[test]
fn two_writers_of_one_record(rt: HostRuntime) -> Result<(), Fail> {
    let scene = [
        x(Call::Begin, Outcome::Began(1)),
        x(Call::Begin, Outcome::Began(2)),
        x(set3(1, 0, 5), Outcome::Changed),
        by_store(set3(2, 0, 6), 5, 0),
        x(Call::Commit(1), Outcome::Committed(3, 1)),
        by_store(set3(2, 0, 6), 6, 0),
        x(Call::Look(2, 0), row3(0)),
        x(Call::Kept(0), Outcome::Kept(1)),
        x(Call::Abandon(2), Outcome::Abandoned(0)),
        x(Call::Kept(0), Outcome::Kept(0)),
    ];
    let Ok(sizes) = Sizes::check(2, 4, 0) else {
        return Err(Fail::new("sizes"));
    };
    let mut list = [0; 2];
    assert_eq!(rt;
        play::<SlotTable>(rt.alloc(), sizes, &scene, &mut list)?,
        10
    );
    assert_eq!(rt; list, [3, 0]);
    Ok(())
}

// A commit that changes nothing leaves no version, and still the record's last time is above the other writer's number.
#[test]
fn a_conflict_without_a_version(rt: HostRuntime) -> Result<(), Fail> {
    let scene = [
        x(Call::Begin, Outcome::Began(1)),
        x(Call::Begin, Outcome::Began(2)),
        x(set3(2, 0, 0), Outcome::Changed),
        x(Call::Commit(2), Outcome::Committed(3, 1)),
        x(Call::Kept(0), Outcome::Kept(0)),
        by_store(set3(1, 0, 7), 6, 0),
    ];
    let Ok(sizes) = Sizes::check(1, 1, 0) else {
        return Err(Fail::new("sizes"));
    };
    let mut list = [0; 1];
    assert_eq!(rt; play::<SlotTable>(rt.alloc(), sizes, &scene, &mut list)?, 6);
    Ok(())
}

// The writer sees its own row; abandoned, the record reads as before.
#[test]
fn an_abandoned_change(rt: HostRuntime) -> Result<(), Fail> {
    let scene = [
        x(Call::Begin, Outcome::Began(1)),
        x(set3(1, 0, 5), Outcome::Changed),
        x(set3(1, 1, 6), Outcome::Changed),
        x(set3(1, 0, 7), Outcome::Changed),
        x(Call::Look(1, 0), row3(7)),
        x(Call::Held(1), Outcome::Held(2)),
        x(Call::InUse, Outcome::InUse(2)),
        x(Call::Abandon(1), Outcome::Abandoned(2)),
        x(Call::Abandon(1), Outcome::Abandoned(0)),
        x(Call::Begin, Outcome::Began(2)),
        x(Call::Look(2, 0), row3(0)),
        x(Call::Look(2, 1), row3(0)),
        x(Call::InUse, Outcome::InUse(0)),
    ];
    let Ok(sizes) = Sizes::check(2, 2, 0) else {
        return Err(Fail::new("sizes"));
    };
    let mut list = [9; 3];
    assert_eq!(rt;
        play::<SlotTable>(rt.alloc(), sizes, &scene, &mut list)?,
        13
    );
    assert_eq!(rt; list, [0, 1, 9]);
    Ok(())
}

// Its records stay held: the writer itself finds 4, another finds 5, and Abandon frees them.
#[test]
fn a_writer_whose_lease_was_closed(rt: HostRuntime) -> Result<(), Fail> {
    let scene = [
        x(Call::Begin, Outcome::Began(1)),
        x(set3(1, 0, 9), Outcome::Changed),
        x(Call::Close(1), Outcome::Closed),
        by_registry(set3(1, 0, 8), 4, 1),
        by_registry(Call::Look(1, 0), 4, 1),
        by_registry(Call::Commit(1), 4, 1),
        x(Call::Held(1), Outcome::Held(1)),
        x(Call::Begin, Outcome::Began(2)),
        by_store(set3(2, 0, 5), 5, 0),
        x(Call::Abandon(1), Outcome::Abandoned(1)),
        x(set3(2, 0, 5), Outcome::Changed),
        x(Call::Commit(2), Outcome::Committed(3, 1)),
    ];
    let Ok(sizes) = Sizes::check(1, 1, 0) else {
        return Err(Fail::new("sizes"));
    };
    let mut list = [9; 2];
    assert_eq!(rt;
        play::<SlotTable>(rt.alloc(), sizes, &scene, &mut list)?,
        12
    );
    assert_eq!(rt; list, [0, 9]);
    Ok(())
}

// While the clock still stands at its number, Open revives a writer.
#[test]
fn a_writer_revived(rt: HostRuntime) -> Result<(), Fail> {
    let scene = [
        x(Call::Begin, Outcome::Began(1)),
        x(set3(1, 0, 9), Outcome::Changed),
        x(Call::Close(1), Outcome::Closed),
        x(Call::Open, Outcome::Opened(1)),
        x(Call::Commit(1), Outcome::Committed(2, 1)),
        x(Call::Open, Outcome::Opened(2)),
        x(Call::Read(2, 0), row3(9)),
    ];
    let Ok(sizes) = Sizes::check(1, 1, 0) else {
        return Err(Fail::new("sizes"));
    };
    let mut list = [0; 1];
    assert_eq!(rt; play::<SlotTable>(rt.alloc(), sizes, &scene, &mut list)?, 7);
    Ok(())
}

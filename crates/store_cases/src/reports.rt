// Reports: an hour's statement against changing rows, and leases at one time.
use crate::scene::{by_registry, play, row3, set3, x};
use history::call::{Call, Outcome};
use slot_table::SlotTable;
use sorted_list::SortedList;
use std::test::Fail;
use store::sizes::Sizes;

// The statement opened at 10 goes on to read what was there at 10. One version leads back over both commits, and has the
// newer time; once the statement is closed no version is kept.
#[test]
fn a_statement_keeps_its_hour(rt: HostRuntime) -> Result<(), Fail> {
    let scene = [
        x(Call::Open, Outcome::Opened(10)),
        x(Call::Begin, Outcome::Began(11)),
        x(set3(11, 0, 100), Outcome::Changed),
        x(Call::Commit(11), Outcome::Committed(12, 1)),
        x(Call::Read(10, 0), row3(0)),
        x(Call::Begin, Outcome::Began(13)),
        x(set3(13, 0, 200), Outcome::Changed),
        x(Call::Commit(13), Outcome::Committed(14, 1)),
        x(Call::Read(10, 0), row3(0)),
        x(Call::Kept(0), Outcome::Kept(1)),
        x(Call::Open, Outcome::Opened(14)),
        x(Call::Read(14, 0), row3(200)),
        x(Call::InUse, Outcome::InUse(1)),
        x(Call::Close(10), Outcome::Closed),
        x(Call::Kept(0), Outcome::Kept(0)),
        x(Call::InUse, Outcome::InUse(0)),
        x(Call::Read(14, 0), row3(200)),
    ];
    let Ok(sizes) = Sizes::check(1, 4, 10) else {
        return Err(Fail::new("sizes"));
    };
    let mut list = [0; 4];
    assert_eq!(rt;
        play::<SlotTable>(rt.alloc(), sizes, &scene, &mut list)?,
        17
    );
    assert_eq!(rt; list, [14, 0, 0, 0]);
    Ok(())
}

// Two leases at one time: the version goes with the second of them.
#[test]
fn two_leases_at_one_time(rt: HostRuntime) -> Result<(), Fail> {
    let scene = [
        x(Call::Open, Outcome::Opened(0)),
        x(Call::Open, Outcome::Opened(0)),
        x(Call::Begin, Outcome::Began(1)),
        x(set3(1, 0, 5), Outcome::Changed),
        x(Call::Commit(1), Outcome::Committed(2, 1)),
        x(Call::Kept(0), Outcome::Kept(1)),
        x(Call::Close(0), Outcome::Closed),
        x(Call::Kept(0), Outcome::Kept(1)),
        x(Call::Read(0, 0), row3(0)),
        x(Call::Close(0), Outcome::Closed),
        x(Call::Kept(0), Outcome::Kept(0)),
        by_registry(Call::Close(0), 4, 0),
    ];
    let Ok(sizes) = Sizes::check(1, 1, 0) else {
        return Err(Fail::new("sizes"));
    };
    let mut list = [0; 4];
    assert_eq!(rt;
        play::<SortedList>(rt.alloc(), sizes, &scene, &mut list)?,
        12
    );
    assert_eq!(rt; list, [2, 2, 0, 0]);
    Ok(())
}

// The session of two records and two versions: a report, two writers, and the versions that they leave.
#[test]
fn a_session(rt: HostRuntime) -> Result<(), Fail> {
    let scene = [
        x(Call::Begin, Outcome::Began(1)),
        x(set3(1, 0, 8500), Outcome::Changed),
        x(Call::Commit(1), Outcome::Committed(2, 1)),
        x(Call::Open, Outcome::Opened(2)),
        x(Call::Begin, Outcome::Began(3)),
        x(set3(3, 0, 8700), Outcome::Changed),
        x(Call::Commit(3), Outcome::Committed(4, 1)),
        x(Call::Read(2, 0), row3(8500)),
        x(Call::Kept(0), Outcome::Kept(1)),
        x(Call::Close(2), Outcome::Closed),
        by_registry(Call::Close(2), 4, 2),
        x(Call::InUse, Outcome::InUse(0)),
    ];
    let Ok(sizes) = Sizes::check(2, 2, 0) else {
        return Err(Fail::new("sizes"));
    };
    let mut list = [0; 2];
    assert_eq!(rt;
        play::<SortedList>(rt.alloc(), sizes, &scene, &mut list)?,
        12
    );
    assert_eq!(rt; list, [4, 0]);
    Ok(())
}

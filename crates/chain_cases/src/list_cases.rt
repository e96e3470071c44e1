// Lists of 0, 1, 2 and 40 versions, joins within a gap, and versions that change nothing.
use crate::parts::*;
use chain::list::{prune_list, read_list};
use chain::version::Version;
use fields::{Fields, Patch};
use slot_table::SlotTable;
use std::array;
use std::test::Fail;

#[test]
fn no_version(rt: HostRuntime) -> Result<(), Fail> {
    let registry = opened(&[5])?;
    assert_eq!(rt;
        prune_list::<Fields, SlotTable>(&registry, row(1), &mut []),
        0
    );
    assert_eq!(rt; read_list::<Fields>(row(1), &[], 0).values, row(1).values);
    Ok(())
}

// A version at 7: open 7 it is dropped, open 6 it stays, and nothing open drops it.
#[test]
fn one_version(rt: HostRuntime) -> Result<(), Fail> {
    let mut at_7 = [version(7, 3)];
    assert_eq!(rt;
        prune_list::<Fields, SlotTable>(&opened(&[7])?, row(4), &mut at_7),
        0
    );
    let mut at_6 = [version(7, 3)];
    assert_eq!(rt;
        prune_list::<Fields, SlotTable>(&opened(&[6])?, row(4), &mut at_6),
        1
    );
    check_version(&rt, at_6[0], 7, 3)?;
    let mut none = [version(7, 3)];
    assert_eq!(rt;
        prune_list::<Fields, SlotTable>(&opened(&[])?, row(4), &mut none),
        0
    );
    assert_eq!(rt; read_list::<Fields>(row(4), &at_6, 7).values, row(4).values);
    assert_eq!(rt; read_list::<Fields>(row(4), &at_6, 6).values, row(3).values);
    Ok(())
}

// 9 {0: 30}, 6 {0: 20}: a lease at 6 keeps them apart, one at 5 alone joins them under 9.
#[test]
fn two_versions(rt: HostRuntime) -> Result<(), Fail> {
    let mut both = [version(9, 30), version(6, 20)];
    assert_eq!(rt;
        prune_list::<Fields, SlotTable>(&opened(&[5, 6])?, row(40), &mut both),
        2
    );
    check_version(&rt, both[0], 9, 30)?;
    check_version(&rt, both[1], 6, 20)?;
    let mut joined = [version(9, 30), version(6, 20)];
    assert_eq!(rt;
        prune_list::<Fields, SlotTable>(&opened(&[5])?, row(40), &mut joined),
        1
    );
    check_version(&rt, joined[0], 9, 20)
}

// Four versions in one gap become one, with the newest time and the oldest value; the place behind it is as it was.
#[test]
fn four_in_one_gap(rt: HostRuntime) -> Result<(), Fail> {
    let mut list = [version(9, 4), version(8, 3), version(7, 2), version(6, 1)];
    assert_eq!(rt;
        prune_list::<Fields, SlotTable>(&opened(&[2, 2])?, row(5), &mut list),
        1
    );
    check_version(&rt, list[0], 9, 1)?;
    check_version(&rt, list[1], 8, 3)
}

// Alone, a version that undoes 85 to 85 goes. In a gap, 9 {0: 87} and 6 {0: 85} from 85 lead back to 85, and go together.
#[test]
fn no_change(rt: HostRuntime) -> Result<(), Fail> {
    let mut alone = [version(9, 85)];
    assert_eq!(rt;
        prune_list::<Fields, SlotTable>(&opened(&[5])?, row(85), &mut alone),
        0
    );
    let mut gap = [version(9, 87), version(6, 85)];
    assert_eq!(rt;
        prune_list::<Fields, SlotTable>(&opened(&[5])?, row(85), &mut gap),
        0
    );
    let mut apart = [version(9, 87), version(6, 85)];
    assert_eq!(rt;
        prune_list::<Fields, SlotTable>(&opened(&[5, 7])?, row(85), &mut apart),
        2
    );
    Ok(())
}

// Forty versions at 40, 39, .. 1, each undoing to its time less one; open 30 and 10: 40 {0: 30} and 30 {0: 10}.
#[test]
fn forty_versions(rt: HostRuntime) -> Result<(), Fail> {
    let mut list: [Version<Patch>; 40] = array::from_fn(|i| version(40 - i as u32, 39 - i as u32));
    assert_eq!(rt;
        prune_list::<Fields, SlotTable>(&opened(&[10, 30])?, row(40), &mut list),
        2
    );
    check_version(&rt, list[0], 40, 30)?;
    check_version(&rt, list[1], 30, 10)
}

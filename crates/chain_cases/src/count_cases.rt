// Many small chains against many sets of open times: the pruned length is the number of points at which readings differ.
ghost use Rattle.std.specs.Prelude.{◌<◌};

use crate::parts::*;
use chain::list::{prune_list, read_list};
use fields::Fields;
use lease::registry::Registry;
use slot_table::SlotTable;
use std::process::Abort;
use std::test::Fail;

// The value behind j versions is bit j: five values, four versions at the times 8, 6, 4 and 2.
fn value(history: u8, j: u8) -> u32
    requires { j < 5 }
{
    if history >> j & 1 == 1 { 1 } else { 0 }
}

// Of the times 9, 7, 5, 3 and 1, those whose bit is set are open; behind the time number j lie j versions.
fn open_at(bits: u8) -> Result<SlotTable, Fail> {
    let mut registry = SlotTable::empty();
    for j in 0..5u8 {
        if bits >> j & 1 == 1 {
            if registry.add(9 - 2 * u32::from(j)).is_err() {
                return Err(Fail::new("no room for a lease"));
            }
        }
    }
    Ok(registry)
}

// From the newest value back through the open times: how often the reading differs from the one before. A loop: a fold would
// carry the last value and the count as a pair, and be no plainer.
fn differing(history: u8, bits: u8) -> usize {
    let mut last = value(history, 0);
    let mut n = 0;
    for j in 0..5u8 {
        if bits >> j & 1 == 1 {
            if value(history, j) != last {
                n += 1;
            }
            last = value(history, j);
        }
    }
    n
}

fn check_one(rt: &impl Abort, history: u8, bits: u8) -> Result<(), Fail> {
    let mut list = [
        version(8, value(history, 1)),
        version(6, value(history, 2)),
        version(4, value(history, 3)),
        version(2, value(history, 4)),
    ];
    let registry = open_at(bits)?;
    let newest = row(value(history, 0));
    let n = prune_list::<Fields, SlotTable>(&registry, newest, &mut list);
    assert_eq!(rt; n, differing(history, bits));
    assert!(rt; n <= 4);
    for j in 0..5u8 {
        if bits >> j & 1 == 1 {
            let read = read_list::<Fields>(newest, &list[..n], 9 - 2 * u32::from(j));
            assert_eq!(rt; read.values, row(value(history, j)).values);
        }
    }
    Ok(())
}

#[test]
fn pruned_length_is_the_number_of_differing_points(rt: HostRuntime) -> Result<(), Fail> {
    for history in 0..32u8 {
        for bits in 0..32u8 {
            check_one(&rt, history, bits)?;
        }
    }
    Ok(())
}

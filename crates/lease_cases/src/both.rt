// One table, run through both registries.
use crate::steps::{Call, Step, answer};
use lease::registry::Registry;
use slot_table::SlotTable;
use sorted_list::SortedList;
use std::process::Abort;

const fn step(
    call: Call,
    refused: Option<(u8, u32)>,
    there: u32,
    in_all: u32,
    least: Option<u32>,
) -> Step {
    Step {
        call,
        refused,
        there,
        in_all,
        least,
    }
}

// Every answer of both is the table's.
fn run(rt: &impl Abort, table: &[Step]) {
    let mut slots = SlotTable::empty();
    let mut sorted = SortedList::empty();
    for wanted in table {
        assert_eq!(rt; answer(&mut slots, wanted.call), *wanted);
        assert_eq!(rt; answer(&mut sorted, wanted.call), *wanted);
    }
}

#[test]
fn one_list_through_both(rt: HostRuntime) {
    run(
        &rt,
        &[
            step(Call::Remove(5), Some((4, 5)), 0, 0, None),
            step(Call::Add(5), None, 1, 1, Some(5)),
            step(Call::Add(9), None, 1, 2, Some(9)),
            step(Call::Add(2), None, 1, 3, Some(2)),
            step(Call::Add(5), None, 2, 4, Some(5)),
            step(Call::Remove(3), Some((4, 3)), 0, 4, Some(5)),
            step(Call::Add(0), None, 1, 5, Some(0)),
            step(Call::Add(4294967295), None, 1, 6, Some(4294967295)),
            step(Call::Add(5), None, 3, 7, Some(5)),
            step(Call::Add(9), None, 2, 8, Some(9)),
            step(Call::Remove(5), None, 2, 7, Some(5)),
            step(Call::Remove(2), None, 0, 6, Some(5)),
            step(Call::Remove(2), Some((4, 2)), 0, 6, Some(5)),
            step(Call::Remove(5), None, 1, 5, Some(5)),
            step(Call::Remove(5), None, 0, 4, Some(9)),
            step(Call::Remove(4294967295), None, 0, 3, None),
            step(Call::Remove(9), None, 1, 2, Some(9)),
            step(Call::Remove(9), None, 0, 1, None),
            step(Call::Remove(0), None, 0, 0, None),
            step(Call::Remove(0), Some((4, 0)), 0, 0, None),
        ],
    );
}

// The limits: full and one more, many leases at one time, the first and the last time.
use lease::registry::Registry;
use slot_table::SlotTable;
use sorted_list::SortedList;
use std::process::Abort;
use std::test::Fail;

// Fills a new registry with leases at times that fall by `gap` from a first, sees that one more is refused
// and changes nothing, and that after one remove there is room again.
fn fill<R: Registry + Drop>(rt: &impl Abort, size: u32, first: u32, gap: u32) -> Result<(), Fail> {
    let mut registry = R::empty();
    assert_eq!(rt; R::limit(), size);
    let mut time = first;
    for n in 0..size {
        assert_eq!(rt; registry.total(), n);
        assert!(rt; registry.add(time).is_ok());
        time = time.wrapping_sub(gap);
    }
    let last = time.wrapping_add(gap);
    let Err(fault) = registry.add(7) else {
        return Err(Fail::new("one more was accepted"));
    };
    assert_eq!(rt; fault.number(), 8);
    assert_eq!(rt; fault.place, size);
    assert_eq!(rt; registry.total(), size);
    assert_eq!(rt; registry.count_at(7), 0);
    assert_eq!(rt; registry.least_from(0), Some(last));
    assert!(rt; registry.remove(first).is_ok());
    assert!(rt; registry.add(7).is_ok());
    assert_eq!(rt; registry.total(), size);
    Ok(())
}

#[test]
fn eight_slots(rt: HostRuntime) -> Result<(), Fail> {
    fill::<SlotTable>(&rt, 8, 100, 10)
}

#[test]
fn thirty_two_in_the_list(rt: HostRuntime) -> Result<(), Fail> {
    fill::<SortedList>(&rt, 32, 1000, 10)
}

#[test]
fn many_at_one_time(rt: HostRuntime) -> Result<(), Fail> {
    fill::<SlotTable>(&rt, 8, 60, 0)?;
    fill::<SortedList>(&rt, 32, 60, 0)
}

// The first and the last time are times as any other, and above the greatest nothing is open.
fn first_and_last<R: Registry + Drop>(rt: &impl Abort) {
    let mut registry = R::empty();
    assert!(rt; registry.add(4294967295).is_ok());
    assert!(rt; registry.add(0).is_ok());
    assert!(rt; registry.add(40).is_ok());
    assert_eq!(rt; registry.least_from(0), Some(0));
    assert_eq!(rt; registry.least_from(1), Some(40));
    assert_eq!(rt; registry.least_from(40), Some(40));
    assert_eq!(rt; registry.least_from(41), Some(4294967295));
    assert_eq!(rt; registry.least_from(4294967295), Some(4294967295));
    assert!(rt; registry.remove(4294967295).is_ok());
    assert_eq!(rt; registry.least_from(41), None);
    assert_eq!(rt; registry.least_from(4294967295), None);
    assert_eq!(rt; registry.count_at(0), 1);
    assert_eq!(rt; registry.count_at(4294967295), 0);
}

#[test]
fn first_and_last_times(rt: HostRuntime) {
    first_and_last::<SlotTable>(&rt);
    first_and_last::<SortedList>(&rt);
}

use crate::asking::{ask, fill};
use lease::registry::Registry;
use lease::token::Lease;
use slot_table::SlotTable;
use sorted_list::SortedList;
use std::io;

// The rest of a line: the numbers at a time and in all, and the least open time.
fn show_standing<R: Registry>(rt: &impl Print, registry: &R, time: u32) -> io::Result<()> {
    println!(rt; ": {}", ask(registry, time))
}

fn open_one<R: Registry>(rt: &impl Print, registry: &mut R, time: u32) -> io::Result<()> {
    match Lease::open(registry, time) {
        Ok(lease) => {
            let at = lease.write_down();
            print!(rt; "  opened at {at}")?;
        }
        Err(fault) => print!(rt; "  not opened at {time}, refused {fault}")?,
    }
    show_standing(rt, registry, time)
}

fn close_one<R: Registry>(rt: &impl Print, registry: &mut R, time: u32) -> io::Result<()> {
    match Lease::take_up(time).close(registry) {
        Ok(_) => print!(rt; "  closed at {time}")?,
        Err(fault) => print!(rt; "  not closed at {time}, refused {fault}")?,
    }
    show_standing(rt, registry, time)
}

fn fill_up<R: Registry>(rt: &impl Print, registry: &mut R, time: u32) -> io::Result<()> {
    let more = fill(registry, time);
    print!(rt; "  {more} more opened at {time}")?;
    show_standing(rt, registry, time)
}

// Leases opened and closed in one registry, up to its capacity and one more.
fn in_registry<R: Registry + Drop>(rt: &impl Print, name: &str) -> io::Result<()> {
    let mut registry = R::empty();
    let room = R::limit();
    println!(rt; "The {name} has room for {room} leases.")?;
    close_one(rt, &mut registry, 10)?;
    open_one(rt, &mut registry, 20)?;
    open_one(rt, &mut registry, 10)?;
    open_one(rt, &mut registry, 20)?;
    close_one(rt, &mut registry, 10)?;
    fill_up(rt, &mut registry, 30)?;
    open_one(rt, &mut registry, 40)?;
    close_one(rt, &mut registry, 20)?;
    close_one(rt, &mut registry, 20)
}

// The same calls in both registries.
pub fn both_registries(rt: &impl Print) -> io::Result<()> {
    println!(rt;
        "Leases: while one is open at a time, the rows of that time stay readable. A refusal has a number, a layer and a place."
    )?;
    in_registry::<SlotTable>(rt, "slot table")?;
    in_registry::<SortedList>(rt, "sorted list")
}

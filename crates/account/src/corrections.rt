use crate::edits::{empty_weight, weight};
use crate::finishing::Tracked;
use chain::version::Version;
use fields::Fields;
use kind::Kind;
use lease::registry::Registry;
use lease::token::Lease;
use slot_table::SlotTable;
use std::alloc::Global;
use std::io;
use version_table::prune::prune_chain;
use version_table::table::VersionTable;

// The most versions of the truck.
const ROOM: usize = 8;

type Truck = Tracked<Fields, SlotTable>;

fn weight_at(truck: &Truck, time: u32) -> u32 {
    empty_weight(truck.row_at(time))
}

// Each version by its time and what it undoes: the weight at its time, and the one just before.
fn show_versions(rt: &impl Print, truck: &Truck) -> io::Result<()> {
    for version in truck.table.chain(0) {
        let time = version.time;
        let from = weight_at(truck, time);
        let back = weight_at(truck, time.saturating_sub(1));
        println!(rt; "  version {time} leads from {from} back to {back} kg")?;
    }
    Ok(())
}

// The versions, what each open report reads, and the number of versions beside that of the points.
fn show_truck(rt: &impl Print, truck: &Truck, reports: &[u32]) -> io::Result<()> {
    show_versions(rt, truck)?;
    for time in reports {
        let kg = weight_at(truck, *time);
        println!(rt; "  the report at {time} reads {kg} kg")?;
    }
    println!(rt;
        "  versions kept: {}, points at which the readings differ: {}",
        truck.table.len(0),
        truck.differing(reports)
    )
}

fn weigh(
    rt: &impl Print,
    truck: &mut Truck,
    time: u32,
    kg: u32,
    reports: &[u32],
) -> io::Result<()> {
    if !truck.finish(time, weight(kg)) {
        return println!(rt; "At {time} there is no room for a version.");
    }
    println!(rt; "At {time} it weighs {} kg.", empty_weight(truck.row))?;
    show_truck(rt, truck, reports)
}

fn open_report(rt: &impl Print, truck: &mut Truck, time: u32) -> io::Result<()> {
    match Lease::open(&mut truck.registry, time) {
        Ok(lease) => println!(rt; "A report is opened at {}.", lease.write_down()),
        Err(fault) => println!(rt; "A report is refused: {fault}."),
    }
}

fn close_report(rt: &impl Print, truck: &mut Truck, time: u32, left: &[u32]) -> io::Result<()> {
    if let Err(fault) = Lease::take_up(time).close(&mut truck.registry) {
        return println!(rt; "The report at {time} is refused: {fault}.");
    }
    let before = truck.table.used();
    prune_chain::<Fields, SlotTable>(&mut truck.table, 0, &truck.registry, truck.row);
    let after = truck.table.used();
    println!(rt;
        "The report at {time} is closed: versions in the table {before} before, {after} after."
    )?;
    show_truck(rt, truck, left)
}

// Ten weights, one after the other, while the reports are open.
fn ten_changes(rt: &impl Print, truck: &mut Truck, reports: &[u32]) -> io::Result<()> {
    let weights = [8650, 8700, 8600, 8500, 8550, 8600, 8720, 8740, 8500, 8800];
    for (time, kg) in (3..13).zip(weights) {
        weigh(rt, truck, time, kg, reports)?;
    }
    Ok(())
}

// One truck, changed again and again while two reports are open, which are then closed one after the other.
pub fn one_truck(rt: &impl Print, heap: Global) -> io::Result<()> {
    println!(rt;
        "A truck changes again and again while reports are open; its versions stand in a table."
    )?;
    let blank = Version {
        time: 0,
        change: Fields::no_change(),
    };
    let mut truck = Truck {
        row: Fields::blank(),
        table: VersionTable::new(heap, 1, ROOM, blank)?,
        registry: SlotTable::empty(),
    };
    weigh(rt, &mut truck, 1, 8500, &[])?;
    open_report(rt, &mut truck, 1)?;
    weigh(rt, &mut truck, 2, 8600, &[1])?;
    open_report(rt, &mut truck, 2)?;
    ten_changes(rt, &mut truck, &[2, 1])?;
    close_report(rt, &mut truck, 2, &[1])?;
    close_report(rt, &mut truck, 1, &[])
}

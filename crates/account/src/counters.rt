// The yard manager's counters: a store of their own, with a registry of its own.
ghost use Rattle.std.specs.Prelude.{◌≡◌};

use crate::calls::{LeasedStore, RecordEdit};
use crate::edits::load;
use crate::office::Trucks;
use crate::refusals::{show_finished, show_refusal};
use crate::service::show_kept;
use lease::registry::Registry;
use lease::token::Lease;
use slot_table::SlotTable;
use std::alloc::Global;
use std::io;
use store::sizes::Sizes;
use store::store::Store;
use tallies::{Tallies, numbers};

type Counters = LeasedStore<Tallies, SlotTable>;

// The counters of a yard now and on the report.
fn show_counters(
    rt: &impl Print,
    counters: &mut Counters,
    report: &Lease,
    yard: u64,
) -> io::Result<()>
    ensures { ⟦<SlotTable as Registry>⟧.leases counters.new.registry ≡ ⟦<SlotTable as Registry>⟧.leases counters.old.registry }
{
    match counters.now_and_on("the report", report, yard) {
        Ok((newest, reported)) => {
            let [loads, kg, _, _] = numbers(newest);
            let [old_loads, old_kg, _, _] = numbers(reported);
            println!(rt;
                "  yard {yard} counts {loads} loads and {kg} kg now, {old_loads} loads and {old_kg} kg on the report"
            )
        }
        Err(refusal) => println!(rt; "  {refusal}"),
    }
}

// The first loads of two yards.
fn first_loads(rt: &impl Print, counters: &mut Counters) -> io::Result<()>
    ensures { ⟦<SlotTable as Registry>⟧.leases counters.new.registry ≡ ⟦<SlotTable as Registry>⟧.leases counters.old.registry }
{
    let edits = [
        RecordEdit::of(0, load(2, 38000)),
        RecordEdit::of(1, load(1, 21500)),
    ];
    show_finished(rt, "the first loads", counters.change_all(&edits))
}

// More loads while the manager's report is open.
fn more_loads(
    rt: &impl Print,
    trucks: &Trucks,
    counters: &mut Counters,
    report: &Lease,
) -> io::Result<()>
    ensures { ⟦<SlotTable as Registry>⟧.leases counters.new.registry ≡ ⟦<SlotTable as Registry>⟧.leases counters.old.registry }
{
    println!(rt; "The manager opens a report at {}.", report.time())?;
    let edits = [RecordEdit::of(0, load(3, 61000))];
    show_finished(rt, "more loads", counters.change_all(&edits))?;
    for yard in 0..2 {
        show_counters(rt, counters, report, yard)?;
    }
    for yard in 0..2 {
        show_kept(rt, &counters.store, "yard", yard)?;
    }
    println!(rt;
        "  leases open: trucks {}, counters {}",
        trucks.registry.total(),
        counters.registry.total()
    )
}

// The counters in a new store.
fn counters_of(rt: &impl Print, heap: Global, trucks: &Trucks, sizes: Sizes) -> io::Result<()> {
    let mut counters = LeasedStore {
        store: Store::make(heap, sizes)?,
        registry: SlotTable::empty(),
    };
    first_loads(rt, &mut counters)?;
    let report = match counters.store.open(&mut counters.registry) {
        Ok(report) => report,
        Err(fault) => return show_refusal(rt, "the report", fault),
    };
    let told = more_loads(rt, trucks, &mut counters, &report);
    let closed = counters.close(report);
    told?;
    match closed {
        Ok(()) => println!(rt;
            "  the report is closed; versions in use: trucks {}, counters {}",
            trucks.store.in_use(),
            counters.store.in_use()
        ),
        Err(fault) => show_refusal(rt, "the closing", fault),
    }
}

// Two yards with room for two versions, beside the store of the trucks.
pub fn manager(rt: &impl Print, heap: Global, trucks: &Trucks) -> io::Result<()> {
    println!(rt;
        "The yard manager's counters stand in a store of their own, with its own registry."
    )?;
    match Sizes::check(2, 2, 0) {
        Ok(sizes) => counters_of(rt, heap, trucks, sizes),
        Err(fault) => show_refusal(rt, "the store of the counters", fault),
    }
}

// The workload of docs/BENCH.md over the store: counts and checksums of all answers, and on demand times.
#![tactic(auto)]

mod batch;
mod drive;
mod generator;
mod phases;
mod plan;
mod round;
mod settings;
mod single;
mod subject;
mod tally;

use drive::Drive;
use fields::Fields;
use lease::registry::Registry;
use plan::Phase;
use settings::{Settings, read_settings};
use slot_table::SlotTable;
use sorted_list::SortedList;
use std::io;
use subject::Subject;
use tallies::Tallies;

// Runs a phase on a new store of a kind, with a registry, and prints its lines.
fn run_on<K: Subject, R: Registry + Drop>(
    rt: &HostRuntime,
    set: &Settings,
    phase: Phase,
) -> io::Result<()> {
    let mut drive = Drive::<K, R>::new(rt.alloc(), set.sizes, set.records, set.seed)?;
    drive.run(rt, phase, set.rounds)?;
    let kind = K::name();
    println!(rt; "{phase} {kind}")?;
    drive.tally.show(rt)?;
    if set.time {
        drive.tally.show_times(rt)?;
    }
    Ok(())
}

// Runs a phase on a kind, with the registry that the phase takes.
fn run_phase<K: Subject>(rt: &HostRuntime, set: &Settings, phase: Phase) -> io::Result<()> {
    match phase {
        Phase::Contend => run_on::<K, SlotTable>(rt, set, phase),
        _ => run_on::<K, SortedList>(rt, set, phase),
    }
}

fn main(rt: HostRuntime) -> io::Result<()> {
    let Some(set) = read_settings(&rt)? else {
        return println!(rt; "usage: bench RECORDS VERSIONS ROUNDS SEED PHASE.. [time]");
    };
    for phase in set.phases.iter() {
        run_phase::<Fields>(&rt, &set, *phase)?;
        run_phase::<Tallies>(&rt, &set, *phase)?;
    }
    Ok(())
}

// An account of one day at the weighbridge, told from beginning to end. Each figure is computed by the library.
#![tactic(auto)]

mod asking;
mod calls;
mod corrections;
mod counters;
mod edits;
mod finishing;
mod leases;
mod moments;
mod office;
mod refusals;
mod service;
mod statement;
mod trucks;
mod yard;

use std::io;

fn main(rt: HostRuntime) -> io::Result<()> {
    println!(rt; "A day at the weighbridge, told from beginning to end.")?;
    trucks::first_truck(&rt)?;
    trucks::second_truck(&rt)?;
    yard::counters(&rt)?;
    leases::both_registries(&rt)?;
    corrections::one_truck(&rt, rt.alloc())?;
    office::hour(&rt, rt.alloc())
}

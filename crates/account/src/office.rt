// The hour of a statement, from the first weights to the buyer's question.
ghost use Rattle.std.specs.Prelude.{◌≡◌};

use crate::calls::LeasedStore;
use crate::counters::manager;
use crate::refusals::show_refusal;
use crate::service::{buyer, engineer};
use crate::statement::{corrections, first_weights, whole_change};
use fields::Fields;
use lease::registry::Registry;
use lease::token::Lease;
use sorted_list::SortedList;
use std::alloc::Global;
use std::io;
use store::sizes::Sizes;
use store::store::Store;

// The trucks' weights.
pub type Trucks = LeasedStore<Fields, SortedList>;

// What happens while the statement is open.
fn meanwhile(
    rt: &impl Print,
    heap: Global,
    trucks: &mut Trucks,
    statement: &Lease,
) -> io::Result<()>
    ensures { ⟦<SortedList as Registry>⟧.leases trucks.new.registry ≡ ⟦<SortedList as Registry>⟧.leases trucks.old.registry }
{
    println!(rt;
        "The accountant opens a statement at {}, which stays open for an hour.",
        statement.time()
    )?;
    corrections(rt, trucks, statement)?;
    whole_change(rt, trucks, statement)?;
    manager(rt, heap, trucks)?;
    engineer(rt, trucks)
}

// The hour over a store of these sizes.
fn hour_of(rt: &impl Print, heap: Global, sizes: Sizes) -> io::Result<()> {
    let mut trucks = LeasedStore {
        store: Store::make(heap, sizes)?,
        registry: SortedList::empty(),
    };
    first_weights(rt, &mut trucks)?;
    let statement = match trucks.store.open(&mut trucks.registry) {
        Ok(statement) => statement,
        Err(fault) => return show_refusal(rt, "the statement", fault),
    };
    let told = meanwhile(rt, heap, &mut trucks, &statement);
    let asked = buyer(rt, &mut trucks, statement);
    told?;
    asked
}

// Three trucks with room for four versions, from the time 700 on.
pub fn hour(rt: &impl Print, heap: Global) -> io::Result<()> {
    match Sizes::check(3, 4, 700) {
        Ok(sizes) => hour_of(rt, heap, sizes),
        Err(fault) => show_refusal(rt, "the store of the trucks", fault),
    }
}

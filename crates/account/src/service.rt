// What the service engineer and the buyer ask of a store.
ghost use Rattle.std.specs.Prelude.{◌≡◌};
ghost use Rattle.lease.specs.Times.{delete};

use crate::calls::RecordEdit;
use crate::edits::weight;
use crate::office::Trucks;
use crate::refusals::{Refused, show_finished, show_refusal};
use kind::Kind;
use lease::registry::Registry;
use lease::token::Lease;
use sorted_list::SortedList;
use std::io;
use store::store::Store;

// The places for the times of one record's versions.
const ROOM: usize = 4;

// The rest of a line: how many versions of a record are kept, and their times, newest first; or why that is refused.
fn show_times<K: Kind>(
    rt: &impl Print,
    store: &Store<K>,
    record: u64,
    list: &mut [u32],
) -> io::Result<()> {
    match store.kept(record, list) {
        Ok(n) => {
            // The store writes into a given list and answers how much, since it allocates nothing.
            print!(rt; "{n}")?;
            for time in list.iter().take(n) {
                print!(rt; ", at {time}")?;
            }
            println!(rt; "")
        }
        Err(fault) => println!(rt; "{}", Refused(fault)),
    }
}

// The versions kept of a record, with their times, newest first.
pub fn show_kept<K: Kind>(
    rt: &impl Print,
    store: &Store<K>,
    name: &str,
    record: u64,
) -> io::Result<()> {
    print!(rt; "  versions kept of {name} {record}: ")?;
    show_times(rt, store, record, &mut [0; ROOM])
}

// The engineer looks at every truck, at one that is not there, and at calls that find no room.
pub fn engineer(rt: &impl Print, trucks: &mut Trucks) -> io::Result<()>
    ensures { ⟦<SortedList as Registry>⟧.leases trucks.new.registry ≡ ⟦<SortedList as Registry>⟧.leases trucks.old.registry }
{
    println!(rt; "The service engineer asks what is kept, and sees why a call is refused.")?;
    for truck in 0..4 {
        show_kept(rt, &trucks.store, "truck", truck)?;
    }
    print!(rt; "  a list too short for truck 0: ")?;
    show_times(rt, &trucks.store, 0, &mut [])?;
    let edits = [
        RecordEdit::of(0, weight(9000)),
        RecordEdit::of(1, weight(9000)),
    ];
    let done = trucks.change_all(&edits);
    show_finished(rt, "a change of more trucks than there is room for", done)
}

// The buyer counts the versions in use while the statement is open, and when it is closed.
pub fn buyer(rt: &impl Print, trucks: &mut Trucks, statement: Lease) -> io::Result<()>
    ensures { ⟦<SortedList as Registry>⟧.leases trucks.new.registry ≡ delete statement.time (delete statement.time (⟦<SortedList as Registry>⟧.leases trucks.old.registry)) }
{
    let time = statement.time();
    let open = trucks.store.in_use();
    let closed = trucks.close(statement);
    let shut = trucks.store.in_use();
    let again = trucks.close(Lease::take_up(time));
    println!(rt; "The buyer asks how many versions are in use.")?;
    println!(rt; "  while the statement is open: {open}")?;
    match closed {
        Ok(()) => println!(rt; "  when it is closed: {shut}")?,
        Err(fault) => show_refusal(rt, "the closing", fault)?,
    }
    match again {
        Ok(()) => println!(rt; "  closed once more"),
        Err(fault) => show_refusal(rt, "closed once more", fault),
    }
}

// A statement that stays open while weights change, and a change of several trucks at once.
ghost use Rattle.std.specs.Prelude.{◌≡◌};

use crate::calls::RecordEdit;
use crate::edits::{axles_and_weight, empty_weight, weight};
use crate::office::Trucks;
use crate::refusals::{Refusal, Refused, show_finished, show_refusal};
use crate::service::show_kept;
use fields::{Attributes, Fields};
use kind::Kind;
use lease::registry::Registry;
use lease::token::{Lease, Writer};
use sorted_list::SortedList;
use std::io;
use store::store::Store;

// The weights of a truck now and on the statement.
fn show_weights(
    rt: &impl Print,
    trucks: &mut Trucks,
    statement: &Lease,
    truck: u64,
) -> io::Result<()>
    ensures { ⟦<SortedList as Registry>⟧.leases trucks.new.registry ≡ ⟦<SortedList as Registry>⟧.leases trucks.old.registry }
{
    match trucks.now_and_on("the statement", statement, truck) {
        Ok((newest, stated)) => println!(rt;
            "  truck {truck} weighs {} kg now and {} kg on the statement",
            empty_weight(newest),
            empty_weight(stated)
        ),
        Err(refusal) => println!(rt; "  {refusal}"),
    }
}

// Three trucks are weighed by one writer.
pub fn first_weights(rt: &impl Print, trucks: &mut Trucks) -> io::Result<()>
    ensures { ⟦<SortedList as Registry>⟧.leases trucks.new.registry ≡ ⟦<SortedList as Registry>⟧.leases trucks.old.registry }
{
    println!(rt; "The operator weighs the trucks empty, in one change.")?;
    let edits = [
        RecordEdit::of(0, weight(8500)),
        RecordEdit::of(1, weight(14200)),
        RecordEdit::of(2, weight(9900)),
    ];
    show_finished(rt, "the weighing", trucks.change_all(&edits))
}

// One truck is corrected three times.
pub fn corrections(rt: &impl Print, trucks: &mut Trucks, statement: &Lease) -> io::Result<()>
    ensures { ⟦<SortedList as Registry>⟧.leases trucks.new.registry ≡ ⟦<SortedList as Registry>⟧.leases trucks.old.registry }
{
    println!(rt; "Meanwhile a weight is corrected, corrected back, and corrected again.")?;
    for kg in [8700, 8500, 8800] {
        let edits = [RecordEdit::of(0, weight(kg))];
        show_finished(rt, "the correction", trucks.change_all(&edits))?;
        show_weights(rt, trucks, statement, 0)?;
        show_kept(rt, &trucks.store, "truck", 0)?;
    }
    Ok(())
}

// The rows of a truck that a writer sees, and that a new report reads.
fn look_at(
    trucks: &mut Trucks,
    writer: &Writer,
    truck: u64,
) -> Result<(Attributes, Attributes), Refusal<'static>>
    ensures { ⟦<SortedList as Registry>⟧.leases trucks.new.registry ≡ ⟦<SortedList as Registry>⟧.leases trucks.old.registry }
{
    let mut seen = Fields::blank();
    let looked = trucks
        .store
        .look(&trucks.registry, writer, truck, &mut seen);
    let newest = trucks.read_now(truck);
    looked.map_err(|fault| Refusal::of("the writer's look", fault))?;
    let newest = newest.map_err(|fault| Refusal::of("a new report", fault))?;
    Ok((seen, newest))
}

// What a writer sees of a truck, and what a new report reads.
fn show_look(rt: &impl Print, trucks: &mut Trucks, writer: &Writer, truck: u64) -> io::Result<()>
    ensures { ⟦<SortedList as Registry>⟧.leases trucks.new.registry ≡ ⟦<SortedList as Registry>⟧.leases trucks.old.registry }
{
    match look_at(trucks, writer, truck) {
        Ok((seen, newest)) => println!(rt;
            "  writer {} sees truck {truck} at {} kg, and a new report reads {} kg",
            writer.number(),
            empty_weight(seen),
            empty_weight(newest)
        ),
        Err(refusal) => println!(rt; "  {refusal}"),
    }
}

// How many records a writer holds.
fn show_held(rt: &impl Print, store: &Store<Fields>, writer: &Writer) -> io::Result<()> {
    match store.held(writer, &mut [0; 4]) {
        Ok(n) => println!(rt; "  writer {} holds records: {n}", writer.number()),
        Err(fault) => show_refusal(rt, "the held records", fault),
    }
}

// Another writer changes a truck that is held.
fn turned_away(rt: &impl Print, trucks: &mut Trucks, truck: u64) -> io::Result<()>
    ensures { ⟦<SortedList as Registry>⟧.leases trucks.new.registry ≡ ⟦<SortedList as Registry>⟧.leases trucks.old.registry }
{
    print!(rt; "  another writer's change of truck {truck}: ")?;
    match trucks.change_all(&[RecordEdit::of(truck, weight(15000))]) {
        Ok((clock, n)) => println!(rt; "finished at {clock}, records: {n}"),
        Err(fault) => println!(rt; "{}", Refused(fault)),
    }
}

// Before the writer is committed: what it sees, what others read, and that another writer is turned away.
fn before_commit(rt: &impl Print, trucks: &mut Trucks, writer: &Writer) -> io::Result<()>
    ensures { ⟦<SortedList as Registry>⟧.leases trucks.new.registry ≡ ⟦<SortedList as Registry>⟧.leases trucks.old.registry }
{
    let edits = [
        RecordEdit::of(1, weight(14350)),
        RecordEdit::of(2, axles_and_weight(3, 10050)),
    ];
    if let Err(fault) = trucks.make_each(writer, &edits) {
        return show_refusal(rt, "the change", fault);
    }
    show_look(rt, trucks, writer, 1)?;
    show_look(rt, trucks, writer, 2)?;
    show_held(rt, &trucks.store, writer)?;
    turned_away(rt, trucks, 1)
}

// Several trucks are changed by one writer, and take effect together.
pub fn whole_change(rt: &impl Print, trucks: &mut Trucks, statement: &Lease) -> io::Result<()>
    ensures { ⟦<SortedList as Registry>⟧.leases trucks.new.registry ≡ ⟦<SortedList as Registry>⟧.leases trucks.old.registry }
{
    println!(rt;
        "The operator changes several trucks at once: none of it is seen until all of it is finished."
    )?;
    let writer = match trucks.store.begin(&mut trucks.registry) {
        Ok(writer) => writer,
        Err(fault) => return show_refusal(rt, "a writer", fault),
    };
    let told = before_commit(rt, trucks, &writer);
    let done = trucks.commit_or_abandon(writer);
    told?;
    show_finished(rt, "the change", done)?;
    show_weights(rt, trucks, statement, 1)?;
    show_weights(rt, trucks, statement, 2)
}

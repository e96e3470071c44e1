use crate::edits::{axles_and_weight, weight};
use crate::moments::{Moments, edit_twice, look_back};
use fields::{Attributes, Fields, Patch, numbers};
use kind::Kind;
use kind::undoing::there_and_back;
use std::{fmt, io};

// Numbers on a line, each behind a space.
#[derive(Clone, Copy)]
struct Spaced<'a>(&'a [u32]);

impl fmt::Display for Spaced<'_> {
    fn fmt<W: fmt::Write>(&self, f: &mut fmt::Formatter<W>) -> fmt::Result {
        for number in self.0 {
            write!(f, " {number}")?;
        }
        Ok(())
    }
}

fn show_row(rt: &impl Print, what: &str, row: Attributes) -> io::Result<()> {
    println!(rt; "  {what}: attributes{}", Spaced(&numbers(row)))
}

fn show_change(rt: &impl Print, what: &str, change: Patch) -> io::Result<()> {
    let mask = change.mask;
    println!(rt; "  {what}: mask {mask}, values{}", Spaced(&change.values))
}

fn show_same(rt: &impl Print, what: &str, a: Attributes, b: Attributes) -> io::Result<()> {
    let told = if Fields::same(a, b) {
        "the same"
    } else {
        "not the same"
    };
    println!(rt; "  {what}: {told}")
}

fn show_edits(rt: &impl Print, m: &Moments<Attributes, Patch>) -> io::Result<()> {
    show_row(rt, "after the first edit", m.second)?;
    show_change(rt, "its before-image", m.older)?;
    show_row(rt, "after the second edit", m.third)?;
    show_change(rt, "its before-image", m.newer)
}

fn show_back(rt: &impl Print, m: &Moments<Attributes, Patch>) -> io::Result<()> {
    let changes = [m.newer, m.older];
    let (each, at_once) = look_back::<Fields>(m.third, &changes);
    show_row(rt, "one change undone", Fields::undo(m.third, m.newer))?;
    show_row(rt, "both undone, newest first", each)?;
    show_change(rt, "both before-images joined", m.joined)?;
    show_row(rt, "the join undone at once", at_once)?;
    show_same(rt, "one by one and at once", each, at_once)
}

// The first truck: its empty weight is set; a statement stands; then it is corrected, and corrected back.
pub fn first_truck(rt: &impl Print) -> io::Result<()> {
    let (row, change) = Fields::edit(Fields::blank(), weight(8500));
    println!(rt; "Truck 1 is weighed empty, and a statement is opened.")?;
    show_row(rt, "the statement's row", row)?;
    show_change(rt, "its before-image", change)?;
    println!(rt; "The weight is corrected, and corrected back, while the statement stands.")?;
    let m = edit_twice::<Fields>(row, weight(8700), weight(8500));
    show_edits(rt, &m)?;
    show_back(rt, &m)?;
    show_same(rt, "the newest row and the statement's", m.third, row)
}

// The second truck: two attributes at once, then one of them again.
pub fn second_truck(rt: &impl Print) -> io::Result<()> {
    println!(rt; "Truck 2 has its axles counted and is weighed empty, twice.")?;
    let m = edit_twice::<Fields>(Fields::blank(), axles_and_weight(5, 14200), weight(14350));
    show_edits(rt, &m)?;
    show_back(rt, &m)?;
    let back = there_and_back::<Fields>(m.third, axles_and_weight(6, 15000));
    show_same(rt, "a third edit made and taken back", m.third, back)
}

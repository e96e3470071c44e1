use crate::edits::load;
use crate::moments::{edit_twice, look_back};
use kind::Kind;
use std::io;
use tallies::{Counts, Tallies, numbers};

fn show_counts(rt: &impl Print, what: &str, row: Counts) -> io::Result<()> {
    let [loads, kg, c, d] = numbers(row);
    println!(rt; "  {what}: loads {loads}, tonnage {kg}, other counters {c} {d}")
}

// The yard: a counter at its largest value wraps, and undoing takes it back.
pub fn counters(rt: &impl Print) -> io::Result<()> {
    println!(rt; "The yard counts loads and tonnage modulo two to the power 64.")?;
    let (row, _) = Tallies::edit(Tallies::blank(), load(u64::MAX, 21000));
    show_counts(rt, "before the loads", row)?;
    let m = edit_twice::<Tallies>(row, load(2, 18500), load(1, 24000));
    show_counts(
        rt,
        "after two loads, the first counter having wrapped",
        m.second,
    )?;
    show_counts(rt, "its before-image takes off", m.older)?;
    show_counts(rt, "after one load more", m.third)?;
    show_counts(rt, "its before-image takes off", m.newer)?;
    show_counts(rt, "both before-images joined take off", m.joined)?;
    let changes = [m.newer, m.older];
    let (each, at_once) = look_back::<Tallies>(m.third, &changes);
    show_counts(rt, "both undone, newest first", each)?;
    show_counts(rt, "the join undone at once", at_once)
}

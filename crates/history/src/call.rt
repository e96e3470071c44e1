// Calls and outcomes as values, of a fixed size.
use crate::fault::StoreFault;

// A call on a store, with its arguments: times, writers' numbers, records, an edit.
#[derive(Clone, Copy)]
pub enum Call<E> {
    Open,
    Read(u32, u64),
    Close(u32),
    Begin,
    Look(u32, u64),
    Change(u32, u64, E),
    Commit(u32),
    Abandon(u32),
    Held(u32),
    Kept(u64),
    InUse,
}

// What came of a call. The list that Held and Kept write stands in a given place; here is its length.
#[derive(Clone, Copy, PartialEq, Eq, Debug)]
pub enum Outcome<R> {
    Opened(u32),
    Shown(R),
    Closed,
    Began(u32),
    Changed,
    Committed(u32, usize),
    Abandoned(usize),
    Held(usize),
    Kept(usize),
    InUse(usize),
    Refused(StoreFault),
}

// Calls that are made at once, between two readings of the clock: their arguments drawn before, their answers taken in afterwards.
use crate::subject::Subject;
use crate::tally::{Sort, Tally};
use history::fault::StoreFault;
use kind::Kind;
use std::alloc::{AllocError, Global};
use std::io;
use std::rt::Clock;
use std::time::Instant;

// The most calls of one batch.
pub(crate) const MOST: usize = 64;

// What a call takes: a report's time or a writer's number, a record, and for a Change the edit.
#[derive(Clone, Copy)]
pub(crate) struct Ask<E> {
    pub(crate) time: u32,
    pub(crate) record: u64,
    pub(crate) edit: E,
}

// One call of a batch: what it takes, the place for a row, and what came of it.
#[derive(Clone, Copy)]
struct Turn<E, Row> {
    ask: Ask<E>,
    row: Row,
    end: Result<(), StoreFault>,
}

// The calls of a batch.
#[derive(Drop)]
pub(crate) struct Batch<K: Kind, E> {
    turns: Vec<Turn<E, K::Row>>,
}

impl<K: Subject, E: Copy> Batch<K, E> {
    // An empty batch, with places for as many calls as there can be.
    pub(crate) fn new(heap: Global) -> Result<Batch<K, E>, AllocError> {
        let turns = Vec::with_capacity(heap, MOST)?;
        Ok(Batch { turns })
    }

    // Whether the batch has as many calls as there can be.
    pub(crate) fn is_full(&self) -> bool {
        self.turns.len() >= MOST
    }

    // Forgets the calls.
    pub(crate) fn clear(&mut self) {
        self.turns.clear();
    }

    // One call more.
    pub(crate) fn ask(&mut self, time: u32, record: u64, edit: E) -> io::Result<()> {
        self.turns.push(Turn {
            ask: Ask { time, record, edit },
            row: K::blank(),
            end: Ok(()),
        })?;
        Ok(())
    }

    // Makes each call of the batch, whose place holds the blank row before it.
    pub(crate) fn make<F: FnMut(&Ask<E>, &mut K::Row) -> Result<(), StoreFault>>(
        &mut self,
        clock: &impl Clock,
        sort: Sort,
        tally: &mut Tally,
        call: F,
    ) -> io::Result<()>
        requires { F.IsAlwaysCallable call }
    {
        self.blank_rows();
        let start = Instant::now(clock)?;
        self.call_each(call);
        tally.spend(sort, start.elapsed(clock)?);
        self.take_in(sort, tally);
        Ok(())
    }

    fn blank_rows(&mut self) {
        for turn in self.turns.iter_mut() {
            turn.row = K::blank();
        }
    }

    fn call_each<F: FnMut(&Ask<E>, &mut K::Row) -> Result<(), StoreFault>>(&mut self, mut call: F)
        requires { F.IsAlwaysCallable call }
    {
        for turn in self.turns.iter_mut() {
            turn.end = call(&turn.ask, &mut turn.row);
        }
    }

    // Takes in what the calls answered, and the rows where they show any.
    fn take_in(&self, sort: Sort, tally: &mut Tally) {
        for turn in self.turns.iter() {
            tally.settle(sort, turn.end);
            if sort.shows_row() {
                K::take_row(tally, turn.row);
            }
        }
    }
}

// Calls that are made one at a time, as values.
use crate::batch::MOST;
use crate::drive::Drive;
use crate::subject::Subject;
use crate::tally::{Sort, Tally};
use history::call::{Call, Outcome};
use lease::registry::Registry;
use run::perform::perform;
use run::turn::wrote;
use std::io;
use std::rt::Clock;
use std::time::Instant;

impl<E: Copy> From<Call<E>> for Sort {
    fn from(call: Call<E>) -> Sort {
        match call {
            Call::Open => Sort::Open,
            Call::Read(_, _) => Sort::Read,
            Call::Close(_) => Sort::Close,
            Call::Begin => Sort::Begin,
            Call::Look(_, _) => Sort::Look,
            Call::Change(_, _, _) => Sort::Change,
            Call::Commit(_) => Sort::Commit,
            Call::Abandon(_) => Sort::Abandon,
            Call::Held(_) => Sort::Held,
            Call::Kept(_) => Sort::Kept,
            Call::InUse => Sort::InUse,
        }
    }
}

// Takes in what an accepted call answered, and what it wrote.
fn take_answer<K: Subject>(tally: &mut Tally, outcome: Outcome<K::Row>, written: &[u32]) {
    match outcome {
        Outcome::Opened(time) | Outcome::Began(time) => tally.take(u64::from(time)),
        Outcome::Shown(row) => K::take_row(tally, row),
        Outcome::Committed(clock, n) => {
            tally.take(u64::from(clock));
            tally.take_count(n);
        }
        Outcome::Abandoned(n) => tally.take_count(n),
        Outcome::Held(n) => {
            tally.take_count(n);
            for record in written {
                tally.take(u64::from(*record));
            }
        }
        Outcome::Kept(n) => {
            tally.take_count(n);
            tally.take_times(written);
        }
        Outcome::InUse(n) => tally.used(n),
        Outcome::Closed | Outcome::Changed | Outcome::Refused(_) => {}
    }
}

// Takes in what a call answered, and what it wrote.
fn take_outcome<K: Subject>(
    tally: &mut Tally,
    sort: Sort,
    outcome: Outcome<K::Row>,
    written: &[u32],
) {
    match outcome {
        Outcome::Refused(fault) => tally.refuse(sort, fault),
        _ => {
            tally.accept(sort);
            take_answer::<K>(tally, outcome, written);
        }
    }
}

impl<K: Subject, R: Registry + Drop> Drive<K, R> {
    // Makes one call with a list of so many places for what it writes, at most as many as a batch has calls.
    pub(crate) fn call_with(
        &mut self,
        clock: &impl Clock,
        call: Call<K::Edit>,
        places: usize,
    ) -> io::Result<Outcome<K::Row>> {
        // The store writes into a given list and answers how much, since it allocates nothing.
        let mut list = [0; MOST];
        let given = places.min(MOST);
        let sort = Sort::from(call);
        let start = Instant::now(clock)?;
        let outcome = perform::<K, R>(
            &mut self.store,
            &mut self.registry,
            call,
            &mut list[..given],
        );
        self.tally.spend(sort, start.elapsed(clock)?);
        let n = wrote(outcome).min(MOST);
        take_outcome::<K>(&mut self.tally, sort, outcome, &list[..n]);
        Ok(outcome)
    }

    // Makes one call that writes no list.
    pub(crate) fn call(
        &mut self,
        clock: &impl Clock,
        call: Call<K::Edit>,
    ) -> io::Result<Outcome<K::Row>> {
        self.call_with(clock, call, 0)
    }
}

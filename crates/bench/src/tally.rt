// What a run counts: calls, refusals, time, and the checksums of all that was answered.
use crate::generator::mixed;
use history::fault::StoreFault;
use lease::fault::Layer;
use std::time::Duration;
use std::{fmt, io};

// The sorts of call.
#[derive(Clone, Copy)]
pub(crate) enum Sort {
    Open,
    Read,
    Close,
    Begin,
    Look,
    Change,
    Commit,
    Abandon,
    Held,
    Kept,
    InUse,
}

// In the order of their numbers in a checksum.
const SORTS: [Sort; 11] = [
    Sort::Open,
    Sort::Read,
    Sort::Close,
    Sort::Begin,
    Sort::Look,
    Sort::Change,
    Sort::Commit,
    Sort::Abandon,
    Sort::Held,
    Sort::Kept,
    Sort::InUse,
];

impl Sort {
    // Whether a call of the sort puts a row into a given place.
    pub(crate) fn shows_row(self) -> bool {
        matches!(self, Sort::Read | Sort::Look)
    }
}

impl fmt::Display for Sort {
    fn fmt<W: fmt::Write>(&self, f: &mut fmt::Formatter<W>) -> fmt::Result {
        f.write_str(match self {
            Sort::Open => "open",
            Sort::Read => "read",
            Sort::Close => "close",
            Sort::Begin => "begin",
            Sort::Look => "look",
            Sort::Change => "change",
            Sort::Commit => "commit",
            Sort::Abandon => "abandon",
            Sort::Held => "held",
            Sort::Kept => "kept",
            Sort::InUse => "in-use",
        })
    }
}

// How many calls of a sort were made, and how long they took.
#[derive(Clone, Copy)]
struct Count {
    sort: Sort,
    calls: u64,
    nanos: u64,
}

// The refusals stand by their numbers, which begin at 1.
#[derive(Drop)]
pub(crate) struct Tally {
    counts: [Count; 11],
    refused: [u64; 11],
    peak: usize,
    answers: u64,
    times: u64,
}

impl Tally {
    pub(crate) fn new() -> Tally {
        Tally {
            counts: SORTS.map(|sort| Count {
                sort,
                calls: 0,
                nanos: 0,
            }),
            refused: [0; 11],
            peak: 0,
            answers: 0,
            times: 0,
        }
    }

    // Takes a number into the checksum of answers.
    pub(crate) fn take(&mut self, x: u64) {
        self.answers = mixed(self.answers, x);
    }

    // Takes a count in. A cast, since std has no `From` of a `usize`.
    pub(crate) fn take_count(&mut self, n: usize) {
        self.take(n as u64);
    }

    // Takes the times that a Kept wrote into their checksum.
    pub(crate) fn take_times(&mut self, times: &[u32]) {
        for time in times {
            self.times = mixed(self.times, u64::from(*time));
        }
    }

    // What was counted of a sort, which stands at the sort's number: the checksum takes the same number in, and a search by the sort would
    // be no plainer.
    fn count_of(&mut self, sort: Sort) -> &mut Count {
        &mut self.counts[sort as usize]
    }

    // One more call of a sort.
    fn count(&mut self, sort: Sort) {
        let count = self.count_of(sort);
        count.calls = count.calls.wrapping_add(1);
    }

    // A call was accepted.
    pub(crate) fn accept(&mut self, sort: Sort) {
        self.count(sort);
        self.take(sort as u64);
    }

    // A call was refused: its number, layer and place are taken in.
    pub(crate) fn refuse(&mut self, sort: Sort, fault: StoreFault) {
        let number = fault.number();
        self.count(sort);
        if let Some(n) = self.refused.get_mut(usize::from(number)) {
            *n = n.wrapping_add(1);
        }
        self.take(100 + u64::from(number));
        self.take(match fault.layer() {
            Layer::Registry => 1,
            Layer::Store => 2,
            Layer::Script => 3,
        });
        self.take(fault.place);
    }

    // A call that answers nothing more was accepted or refused.
    pub(crate) fn settle(&mut self, sort: Sort, done: Result<(), StoreFault>) {
        match done {
            Ok(()) => self.accept(sort),
            Err(fault) => self.refuse(sort, fault),
        }
    }

    // The answer of In use.
    pub(crate) fn used(&mut self, n: usize) {
        self.take_count(n);
        self.peak = self.peak.max(n);
    }

    // Time that calls of a sort took.
    pub(crate) fn spend(&mut self, sort: Sort, time: Duration) {
        let nanos = u64::try_from(time.as_nanos()).unwrap_or(u64::MAX);
        let count = self.count_of(sort);
        count.nanos = count.nanos.wrapping_add(nanos);
    }

    // The lines of a run behind the one that names it.
    pub(crate) fn show(&self, rt: &impl Print) -> io::Result<()> {
        print!(rt; "calls")?;
        for Count { sort, calls, .. } in self.counts.iter() {
            print!(rt; " {sort} {calls}")?;
        }
        print!(rt; "\nrefused")?;
        for (number, n) in self.refused.iter().enumerate().skip(1) {
            print!(rt; " {number}:{n}")?;
        }
        println!(rt;
            "\npeak {}\nanswers {} times {}",
            self.peak, self.answers, self.times
        )
    }

    // The times, one line for each sort of call that was made.
    pub(crate) fn show_times(&self, rt: &impl Print) -> io::Result<()> {
        for Count { sort, calls, nanos } in self.counts.iter().filter(|count| count.calls > 0) {
            let nanos = (*nanos).max(1);
            let rate = u128::from(*calls) * 1_000_000_000 / u128::from(nanos);
            println!(rt; "time {sort} calls {calls} ns {nanos} per-second {rate}")?;
        }
        Ok(())
    }
}

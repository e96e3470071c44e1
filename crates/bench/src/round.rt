// One round of a workload, step by step. Each step draws all that its calls take before it makes them.
use crate::batch::MOST;
use crate::drive::Drive;
use crate::plan::Plan;
use crate::subject::Subject;
use history::call::{Call, Outcome};
use lease::registry::Registry;
use std::rt::Clock;
use std::{array, io, mem};

// The most reports that are open at once.
const REPORTS: usize = 30;

// The most writers that are carried into the next round.
const CARRIED: usize = 2;

impl<K: Subject, R: Registry + Drop> Drive<K, R> {
    // Opens a report and keeps its time.
    pub(crate) fn open_report(&mut self, clock: &impl Clock) -> io::Result<()> {
        if let Outcome::Opened(time) = self.call(clock, Call::Open)? {
            self.reports.push(time)?;
        }
        Ok(())
    }

    fn maybe_open(&mut self, clock: &impl Clock, plan: Plan) -> io::Result<()> {
        let drawn = self.from.below(plan.open);
        if drawn == 0 && self.reports.len() < REPORTS {
            self.open_report(clock)?;
        }
        Ok(())
    }

    // The writers that were carried, and new ones.
    fn begin_writers(&mut self, clock: &impl Clock, plan: Plan) -> io::Result<Vec<u32>> {
        let mut writers = mem::replace(&mut self.carried, Vec::new(self.heap));
        let fresh = self.from.below(plan.writers).saturating_add(1);
        for _i in 0..fresh {
            if let Outcome::Began(w) = self.call(clock, Call::Begin)? {
                writers.push(w)?;
            }
        }
        Ok(writers)
    }

    // Each writer with a number below n.
    fn draw_for_each(&mut self, writers: &[u32], n: u64) -> io::Result<Vec<(u32, u64)>> {
        let mut drawn = Vec::new(self.heap);
        for w in writers {
            drawn.push((*w, self.from.below(n)))?;
        }
        Ok(drawn)
    }

    // Each writer changes some records and looks at them.
    fn change_and_look(
        &mut self,
        clock: &impl Clock,
        writers: &[u32],
        plan: Plan,
    ) -> io::Result<()> {
        for (w, d) in self.draw_for_each(writers, 8)? {
            self.draw_changes(w, d.saturating_add(1), plan)?;
        }
        self.change_all(clock)?;
        self.look_all(clock)
    }

    fn ask_held(&mut self, clock: &impl Clock, writers: &[u32]) -> io::Result<()> {
        for (w, d) in self.draw_for_each(writers, 8)? {
            let places = if d == 0 { 2 } else { MOST };
            self.call_with(clock, Call::Held(w), places)?;
        }
        Ok(())
    }

    // Each writer is abandoned, carried into the next round, or committed.
    fn end_writers(&mut self, clock: &impl Clock, writers: &[u32], plan: Plan) -> io::Result<()> {
        for (w, d) in self.draw_for_each(writers, 16)? {
            if d < plan.abandon {
                self.call(clock, Call::Abandon(w))?;
            } else if d < plan.abandon.saturating_add(plan.carry) && self.carried.len() < CARRIED {
                self.carried.push(w)?;
            } else {
                self.call(clock, Call::Commit(w))?;
            }
        }
        Ok(())
    }

    fn read_some(&mut self, clock: &impl Clock, plan: Plan) -> io::Result<()> {
        for _i in 0..MOST {
            let time = if self.from.below(64) == 0 {
                u32::MAX
            } else {
                self.draw_report()
            };
            let record = self.draw_record(plan.hot);
            self.reads.ask(time, record, ())?;
        }
        self.read_all(clock)
    }

    fn ask_kept(&mut self, clock: &impl Clock, plan: Plan) -> io::Result<()> {
        let asked: [(u64, usize); 4] = array::from_fn(|_i| {
            let record = self.draw_record(plan.hot);
            let places = if self.from.below(8) == 0 { 1 } else { MOST };
            (record, places)
        });
        for (record, places) in asked {
            self.call_with(clock, Call::Kept(record), places)?;
        }
        Ok(())
    }

    // Closes one of the reports, a newer one more often.
    fn maybe_close(&mut self, clock: &impl Clock, plan: Plan) -> io::Result<()> {
        let drawn = self.from.below(plan.close);
        let n = self.reports.len();
        if n > 0 && (drawn == 0 || n >= REPORTS) {
            let j = self.from.place(n);
            let k = self.from.place(n);
            let time = self.reports.remove(j.max(k));
            self.call(clock, Call::Close(time))?;
        }
        Ok(())
    }

    // One round.
    pub(crate) fn round(&mut self, clock: &impl Clock, plan: Plan) -> io::Result<()> {
        self.maybe_open(clock, plan)?;
        let writers = self.begin_writers(clock, plan)?;
        self.change_and_look(clock, &writers, plan)?;
        self.ask_held(clock, &writers)?;
        self.end_writers(clock, &writers, plan)?;
        self.read_some(clock, plan)?;
        self.ask_kept(clock, plan)?;
        self.maybe_close(clock, plan)?;
        self.call(clock, Call::InUse)?;
        Ok(())
    }
}

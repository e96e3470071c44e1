// Whole phases: rounds, what a Read costs, one old reader, and the end that all have in common.
use crate::batch::MOST;
use crate::drive::Drive;
use crate::generator::Generator;
use crate::plan::{Phase, Style};
use crate::subject::Subject;
use history::call::{Call, Outcome};
use lease::registry::Registry;
use std::rt::Clock;
use std::{io, mem};

impl<K: Subject, R: Registry + Drop> Drive<K, R> {
    // One report reads every record.
    fn read_whole(&mut self, clock: &impl Clock, time: u32) -> io::Result<()> {
        for record in 0..self.records {
            self.reads.ask(time, record, ())?;
            if self.reads.is_full() {
                self.read_all(clock)?;
            }
        }
        self.read_all(clock)
    }

    // Each report reads every record.
    fn read_by_each(&mut self, clock: &impl Clock, reports: &[u32]) -> io::Result<()> {
        for time in reports {
            self.read_whole(clock, *time)?;
        }
        Ok(())
    }

    // Ends each lease by a call.
    fn end_each<F: Fn(u32) -> Call<K::Edit>>(
        &mut self,
        clock: &impl Clock,
        leases: &[u32],
        ending: F,
    ) -> io::Result<()>
        requires { F.IsAlwaysCallable ending }
    {
        for time in leases {
            self.call(clock, ending(*time))?;
        }
        Ok(())
    }

    // All reports read every record; then everything is closed and abandoned.
    fn end(&mut self, clock: &impl Clock) -> io::Result<()> {
        let reports = mem::replace(&mut self.reports, Vec::new(self.heap));
        let carried = mem::replace(&mut self.carried, Vec::new(self.heap));
        self.read_by_each(clock, &reports)?;
        self.end_each(clock, &reports, |time| Call::Close(time))?;
        self.end_each(clock, &carried, |writer| Call::Abandon(writer))?;
        self.call(clock, Call::InUse)?;
        Ok(())
    }

    // One writer changes a record and commits.
    fn change_one(&mut self, clock: &impl Clock, w: u32, record: u64) -> io::Result<()> {
        let edit = self.draw_edit(Some(Style::One));
        self.call(clock, Call::Change(w, record, edit))?;
        Ok(())
    }

    // A report, and behind it a commit of every record.
    fn layer(&mut self, clock: &impl Clock) -> io::Result<()> {
        self.open_report(clock)?;
        if let Outcome::Began(w) = self.call(clock, Call::Begin)? {
            for record in 0..self.records {
                self.change_one(clock, w, record)?;
            }
            self.call(clock, Call::Commit(w))?;
        }
        Ok(())
    }

    // Fills the batch with Reads by any report, each of a record that is drawn.
    fn ask_reads<F: Fn(&mut Generator) -> u64>(&mut self, draw: &F) -> io::Result<()>
        requires { F.IsAlwaysCallable draw.now }
    {
        for _i in 0..MOST {
            let time = self.draw_report();
            let record = draw(&mut self.from);
            self.reads.ask(time, record, ())?;
        }
        Ok(())
    }

    // Three layers, and then Reads of records that are drawn.
    fn read_rounds<F: Fn(&mut Generator) -> u64>(
        &mut self,
        clock: &impl Clock,
        rounds: u64,
        draw: &F,
    ) -> io::Result<()>
        requires { F.IsAlwaysCallable draw.now }
    {
        for _i in 0..3 {
            self.layer(clock)?;
        }
        for _i in 0..rounds {
            self.ask_reads(draw)?;
            self.read_all(clock)?;
        }
        Ok(())
    }

    // One old reader, while one record is changed again and again.
    fn old_reader(&mut self, clock: &impl Clock, rounds: u64) -> io::Result<()> {
        self.open_report(clock)?;
        for _i in 0..rounds {
            if let Outcome::Began(w) = self.call(clock, Call::Begin)? {
                self.change_one(clock, w, 0)?;
                self.call(clock, Call::Commit(w))?;
            }
        }
        self.call_with(clock, Call::Kept(0), MOST)?;
        self.call(clock, Call::InUse)?;
        Ok(())
    }

    // A whole phase: each arm is what one of them does.
    pub(crate) fn run(&mut self, clock: &impl Clock, phase: Phase, rounds: u64) -> io::Result<()> {
        match phase {
            // Of one record none is drawn.
            Phase::Far if self.records > 1 => {
                let records = self.records;
                self.read_rounds(clock, rounds, &|from: &mut Generator| from.below(records))?;
            }
            Phase::Near | Phase::Far => {
                self.read_rounds(clock, rounds, &|_from: &mut Generator| 0)?
            }
            Phase::Old => self.old_reader(clock, rounds)?,
            _ => {
                if let Some(plan) = phase.plan(self.records) {
                    for _i in 0..rounds {
                        self.round(clock, plan)?;
                    }
                }
            }
        }
        self.end(clock)
    }
}

// A store under a workload: the store with its registry, the leases that the workload holds, and what it draws and counts.
use crate::batch::Batch;
use crate::generator::Generator;
use crate::plan::{Plan, Style};
use crate::subject::Subject;
use crate::tally::{Sort, Tally};
use lease::registry::Registry;
use lease::token::{Lease, Writer};
use std::alloc::{AllocError, Global};
use std::io;
use std::rt::Clock;
use store::sizes::Sizes;
use store::store::Store;

// Leases are kept as times: reports in the order in which they were opened, and the writers that are carried into the next round.
#[derive(Drop)]
pub(crate) struct Drive<K: Subject, R> {
    pub(crate) store: Store<K>,
    pub(crate) registry: R,
    pub(crate) reads: Batch<K, ()>,
    pub(crate) changes: Batch<K, K::Edit>,
    pub(crate) tally: Tally,
    pub(crate) from: Generator,
    pub(crate) heap: Global,
    pub(crate) reports: Vec<u32>,
    pub(crate) carried: Vec<u32>,
    pub(crate) records: u64,
}

impl<K: Subject, R: Registry + Drop> Drive<K, R> {
    // A new store of these sizes, with an empty registry.
    pub(crate) fn new(
        heap: Global,
        sizes: Sizes,
        records: u64,
        seed: u64,
    ) -> Result<Drive<K, R>, AllocError> {
        Ok(Drive {
            store: Store::<K>::make(heap, sizes)?,
            registry: R::empty(),
            reads: Batch::new(heap)?,
            changes: Batch::new(heap)?,
            tally: Tally::new(),
            from: Generator::new(seed),
            heap,
            reports: Vec::new(heap),
            carried: Vec::new(heap),
            records,
        })
    }

    // Makes the Reads that were asked, and forgets them.
    pub(crate) fn read_all(&mut self, clock: &impl Clock) -> io::Result<()> {
        self.reads
            .make(clock, Sort::Read, &mut self.tally, |ask, row| {
                let lease = Lease::take_up(ask.time);
                let done = self.store.read(&self.registry, &lease, ask.record, row);
                let _time = lease.write_down();
                done
            })?;
        self.reads.clear();
        Ok(())
    }

    // Makes the Changes that were asked.
    pub(crate) fn change_all(&mut self, clock: &impl Clock) -> io::Result<()> {
        self.changes
            .make(clock, Sort::Change, &mut self.tally, |ask, _row| {
                let writer = Writer::take_up(ask.time);
                let done = self
                    .store
                    .change(&self.registry, &writer, ask.record, ask.edit);
                let _number = writer.write_down();
                done
            })
    }

    // Looks by the same writers at the same records, and forgets them.
    pub(crate) fn look_all(&mut self, clock: &impl Clock) -> io::Result<()> {
        self.changes
            .make(clock, Sort::Look, &mut self.tally, |ask, row| {
                let writer = Writer::take_up(ask.time);
                let done = self.store.look(&self.registry, &writer, ask.record, row);
                let _number = writer.write_down();
                done
            })?;
        self.changes.clear();
        Ok(())
    }

    // A record: now and then none, else one of those drawn more often, or any.
    pub(crate) fn draw_record(&mut self, hot: u64) -> u64 {
        let d = self.from.below(64);
        if d == 0 {
            self.records
        } else if d % 2 == 0 {
            self.from.below(hot)
        } else {
            self.from.below(self.records)
        }
    }

    // An edit of the plan's style, or of any.
    pub(crate) fn draw_edit(&mut self, style: Option<Style>) -> K::Edit {
        let style = style.unwrap_or_else(|| match self.from.below(4) {
            0 => Style::Whole,
            1 => Style::Back,
            2 => Style::One,
            _ => Style::Some,
        });
        K::draw(style, &mut self.from)
    }

    // The time of one of the reports, or 0 where there is none.
    pub(crate) fn draw_report(&mut self) -> u32 {
        let n = self.reports.len();
        if n == 0 {
            return 0;
        }
        let at = self.from.place(n);
        self.reports[at]
    }

    // Asks for so many changes by a writer, up to what a batch holds.
    pub(crate) fn draw_changes(&mut self, writer: u32, n: u64, plan: Plan) -> io::Result<()> {
        for _i in 0..n {
            if self.changes.is_full() {
                return Ok(());
            }
            let record = self.draw_record(plan.hot);
            let edit = self.draw_edit(plan.style);
            self.changes.ask(writer, record, edit)?;
        }
        Ok(())
    }
}

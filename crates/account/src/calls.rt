// Several calls of a store made one after the other, with the token that they need in hand.
ghost use Rattle.std.specs.Prelude.{◌≡◌};
ghost use Rattle.lease.specs.Times.{delete};
ghost use Rattle.store.specs.View.{view};
ghost use Rattle.account.specs.Calls.{change_each, made, refusal_of, ReadAt};

use crate::refusals::Refusal;
use history::fault::StoreFault;
use kind::Kind;
use lease::registry::Registry;
use lease::token::{Lease, Writer};
use store::store::Store;

// A record and its edit.
#[derive(Clone, Copy)]
pub struct RecordEdit<E> {
    pub record: u64,
    pub edit: E,
}

impl<E: Copy> RecordEdit<E> {
    pub(crate) fn of(number: u64, edit: E) -> RecordEdit<E>
        ensures { result ≡ record { «record» = number; edit = edit } }
    {
        RecordEdit {
            record: number,
            edit,
        }
    }
}

// A store and the registry of its leases, which every call is made with: the two are one value here.
#[derive(Drop)]
pub struct LeasedStore<K: Kind, R> {
    pub store: Store<K>,
    pub registry: R,
}

impl<K: Kind, R: Registry> LeasedStore<K, R> {
    // Makes each change for a writer, up to the first that is refused.
    pub fn make_each(
        &mut self,
        writer: &Writer,
        edits: &[RecordEdit<K::Edit>],
    ) -> Result<(), StoreFault>
        ensures made { change_each K.ops (view self.old.store) (R.leases self.old.registry) writer.now.time edits.now ≡ made (refusal_of result) (view self.new.store) }
        ensures registry { self.new.registry ≡ self.old.registry }
    {
        for one in edits {
            self.store
                .change(&self.registry, writer, one.record, one.edit)?;
        }
        Ok(())
    }

    // Commits a writer, or abandons it where that is refused: its lease is gone in any case.
    pub fn commit_or_abandon(&mut self, writer: Writer) -> Result<(u32, usize), StoreFault>
        ensures { R.leases self.new.registry ≡ delete writer.time (R.leases self.old.registry) }
    {
        match self.store.commit(&mut self.registry, writer) {
            Ok(done) => Ok(done),
            Err((fault, back)) => {
                let _freed = self.store.abandon(&mut self.registry, back);
                Err(fault)
            }
        }
    }

    // Changes several records by one writer: all of them, or none where one is refused. The open leases are then as they were.
    pub fn change_all(&mut self, edits: &[RecordEdit<K::Edit>]) -> Result<(u32, usize), StoreFault>
        ensures { R.leases self.new.registry ≡ R.leases self.old.registry }
    {
        let writer = self.store.begin(&mut self.registry)?;
        if let Err(fault) = self.make_each(&writer, edits) {
            let _freed = self.store.abandon(&mut self.registry, writer);
            return Err(fault);
        }
        self.commit_or_abandon(writer)
    }

    // The row that a report reads.
    pub fn read_row(&self, lease: &Lease, record: u64) -> Result<K::Row, StoreFault>
        ensures { ReadAt K.ops (view self.now.store) (R.leases self.now.registry) lease.now.time «record» result }
    {
        let mut row = K::blank();
        self.store.read(&self.registry, lease, record, &mut row)?;
        Ok(row)
    }

    // Closes a report: whether that is refused or not, no lease is left that was the report's.
    pub(crate) fn close(&mut self, lease: Lease) -> Result<(), StoreFault>
        ensures { R.leases self.new.registry ≡ delete lease.time (R.leases self.old.registry) }
    {
        self.store.close(&mut self.registry, lease)
    }

    // The row that a report opened just now reads; the report is closed again.
    pub fn read_now(&mut self, record: u64) -> Result<K::Row, StoreFault>
        ensures { R.leases self.new.registry ≡ R.leases self.old.registry }
    {
        let lease = self.store.open(&mut self.registry)?;
        let row = self.read_row(&lease, record);
        self.close(lease)?;
        row
    }

    // A record's row now, and as the report of this name reads it.
    pub(crate) fn now_and_on<'a>(
        &mut self,
        name: &'a str,
        report: &Lease,
        record: u64,
    ) -> Result<(K::Row, K::Row), Refusal<'a>>
        ensures { R.leases self.new.registry ≡ R.leases self.old.registry }
    {
        let reported = self.read_row(report, record);
        let newest = self.read_now(record);
        Ok((
            newest.map_err(|fault| Refusal::of("a new report", fault))?,
            reported.map_err(|fault| Refusal::of(name, fault))?,
        ))
    }
}

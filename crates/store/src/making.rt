ghost use Rattle.std.specs.Prelude.{◌≡◌, IfOk};
ghost use Rattle.history.specs.Model.{new_model};
ghost use Rattle.store.specs.Making.{Sized, fresh_records, fresh_versions};
ghost use Rattle.store.specs.View.{view};

use crate::sizes::Sizes;
use crate::store::Store;
use history::fault::{StoreCause, StoreFault};
use kind::Kind;
use state::tables::Tables;
use std::alloc::{AllocError, Global};

impl Sizes {
    // Refuses 1 for the record table, 1 for the version table, then 2.
    pub fn check(records: u64, versions: u64, start: u64) -> Result<Sizes, StoreFault>
        ensures { Sized records versions start result }
    {
        if !(1..=4096).contains(&records) {
            return Err(StoreCause::TableSize.at(records));
        }
        if !(1..=16384).contains(&versions) {
            return Err(StoreCause::TableSize.at(versions));
        }
        let Ok(start) = u32::try_from(start) else {
            return Err(StoreCause::StartHigh.at(start));
        };
        Ok(Sizes {
            records: records as usize,
            versions: versions as usize,
            start,
        })
    }
}

// A store on which nothing was done yet: its tables and its start.
#[derive(Drop)]
pub struct Fresh<K: Kind> {
    tables: Tables<K>,
    start: u32,
}

impl<K: Kind> Fresh<K> {
    // Makes the tables. Nothing allocates after this.
    pub fn make(heap: Global, sizes: Sizes) -> Result<Fresh<K>, AllocError>
        ensures { IfOk result (λ f. (fresh_records f ≡ sizes.records) × (fresh_versions f ≡ sizes.versions) × (f.start ≡ sizes.start)) }
    {
        let tables = Tables::make(heap, sizes.records, sizes.versions)?;
        Ok(Fresh {
            tables,
            start: sizes.start,
        })
    }

    // The new store: clock at the start, no record held, each row blank and finished at the start.
    pub fn store(self) -> Store<K>
        ensures { view result ≡ new_model K.ops (fresh_records self) (fresh_versions self) self.start }
    {
        Store {
            state: self.tables.start(self.start),
        }
    }
}

impl<K: Kind> Store<K> {
    // Makes a new store.
    pub fn make(heap: Global, sizes: Sizes) -> Result<Store<K>, AllocError>
        ensures { IfOk result (λ s. view s ≡ new_model K.ops sizes.records sizes.versions sizes.start) }
    {
        let fresh = Fresh::make(heap, sizes)?;
        Ok(fresh.store())
    }
}

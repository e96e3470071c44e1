// One record's versions in a table: its chain is number 0.
ghost use Rattle.std.specs.Prelude.{◌≡◌, if◌then◌else◌, slice_set};
ghost use Rattle.lease.specs.Times.{opens};
ghost use Rattle.chain.specs.Versions.{Falling, reads};
ghost use Rattle.version_table.specs.Chains.{chains, chain};
ghost use Rattle.account.specs.Finishing.{finished, points};

use chain::version::Version;
use kind::Kind;
use lease::registry::Registry;
use version_table::prune::prune_chain;
use version_table::table::VersionTable;
use version_table::walk::lead_back;

// A record: its newest row, its versions, and the leases of those who read it.
#[derive(Drop)]
pub struct Tracked<K: Kind, R> {
    pub row: K::Row,
    pub table: VersionTable<K::Change>,
    pub registry: R,
}

impl<K: Kind, R: Registry> Tracked<K, R> {
    // Finishes an edit at a time: the new row stands in place, its before-image in front of the chain, which is pruned. False where there is no room.
    pub fn finish(&mut self, time: u32, edit: K::Edit) -> bool
        ensures row { self.new.row ≡ (if result then K.ops.edited self.old.row edit else self.old.row) }
        ensures chain { chains self.new.table ≡ (if result then slice_set (chains self.old.table) 0 (finished K.ops (opens (R.leases self.old.registry)) self.old.row edit time (chain self.old.table 0)) else chains self.old.table) }
        ensures registry { self.new.registry ≡ self.old.registry }
    {
        let (edited, change) = K::edit(self.row, edit);
        if !self.table.push(0, Version { time, change }) {
            return false;
        }
        self.row = edited;
        prune_chain::<K, R>(&mut self.table, 0, &self.registry, edited);
        true
    }

    // The row at a time: the versions above it undone, where the times of the chain fall.
    pub fn row_at(&self, time: u32) -> K::Row
        ensures { Falling (chain self.now.table 0) → result ≡ reads K.ops self.now.row (chain self.now.table 0) time }
    {
        lead_back::<K>(self.table.chain(0), time, self.row)
    }

    // From the newest row down over the open times: how often the reading differs from the one before. A loop: a fold
    // would carry the last reading and the count as a pair, and be no plainer.
    pub fn differing(&self, times: &[u32]) -> usize
        ensures { Falling (chain self.now.table 0) → result ≡ points K.ops self.now.row (chain self.now.table 0) self.now.row times.now }
    {
        let mut last = self.row;
        let mut n = 0;
        for time in times {
            let here = self.row_at(*time);
            if !K::same(last, here) {
                n += 1;
            }
            last = here;
        }
        n
    }
}

// The calls on a chain by its number. Where there is no such chain they answer as for an empty one, and leave the table as it was.
ghost use Rattle.std.specs.Prelude.{◌≡◌, ◌≤◌, ◌&&◌, [], ◌∷◌, length, drop, replicate, IfOk, if◌then◌else◌, sum_by, MatchOption, nat_le, nat_lt, slice_set};
ghost use Rattle.version_table.specs.Chains.{chains, chain, capacity, Sets};

use crate::table::VersionTable;
use chain::version::Version;
use links::cursor::Cursor;
use links::table::Links;
use std::alloc::{AllocError, Global};

impl<C: Copy> VersionTable<C> {
    // As many empty chains as records, over a table of slots for versions; each slot holds the blank version at first.
    pub fn new(
        heap: Global,
        records: usize,
        versions: usize,
        blank: Version<C>,
    ) -> Result<VersionTable<C>, AllocError>
        requires { (1 ≤ versions) × (versions ≤ 65536) }
        ensures { IfOk result (λ k. (chains k ≡ replicate records []) × (capacity k ≡ versions)) }
    {
        let links = Links::new(heap, records, versions)?;
        // Copied, and not cloned as by `vec!`: a kind does not promise that a clone of its changes cannot fail.
        let versions = (0..versions).map(|_slot| blank).collect(heap)?;
        Ok(VersionTable { links, versions })
    }

    // How many versions all chains have.
    pub fn used(&self) -> usize
        ensures { result ≡ sum_by length (chains self.now) }
    {
        self.links.used()
    }

    // Whether every slot is in use.
    pub fn is_full(&self) -> bool
        ensures { result ≡ nat_le (capacity self.now) (sum_by length (chains self.now)) }
    {
        self.versions.len() <= self.used()
    }

    // A version in front of the chain r: false where the table is full, or there is no such chain.
    pub fn push(&mut self, r: usize, version: Version<C>) -> bool
        ensures room { capacity self.new ≡ capacity self.old }
        ensures done { result ≡ (nat_lt r (length (chains self.old)) && nat_lt (sum_by length (chains self.old)) (capacity self.old)) }
        ensures pushed { chains self.new ≡ (if result then slice_set (chains self.old) r (version ∷ chain self.old r) else chains self.old) }
    {
        match self.links.take(r) {
            None => false,
            Some(s) => {
                self.versions[s as usize] = version;
                true
            }
        }
    }

    // The newest version of the chain r leaves it; none where there is none.
    pub fn pop(&mut self, r: usize) -> Option<Version<C>>
        ensures room { capacity self.new ≡ capacity self.old }
        ensures popped { MatchOption result ((chains self.new ≡ chains self.old) × (chain self.old r ≡ []))
            (λ v. (chains self.new ≡ slice_set (chains self.old) r (drop 1 (chain self.old r))) × (chain self.old r ≡ v ∷ drop 1 (chain self.old r))) }
    {
        match self.links.give(r) {
            None => None,
            Some(s) => Some(self.versions[s as usize]),
        }
    }

    // The newest version of the chain r; none where there is none.
    pub fn front(&self, r: usize) -> Option<Version<C>>
        ensures { MatchOption result (chain self.now r ≡ []) (λ v. chain self.now r ≡ v ∷ drop 1 (chain self.now r)) }
    {
        self.look(Cursor::front(r))
    }

    // Empties the chain r.
    pub fn clear(&mut self, r: usize)
        ensures { Sets self.old r [] self.new }
    {
        self.links.clear(r);
    }

    // How many versions the chain r has.
    pub fn len(&self, r: usize) -> usize
        ensures { result ≡ length (chain self.now r) }
    {
        self.chain(r).count()
    }

    // Another version in place of the newest of the chain r: false where there is none.
    pub fn replace(&mut self, r: usize, version: Version<C>) -> bool
        ensures room { capacity self.new ≡ capacity self.old }
        ensures done { result ≡ nat_lt 0 (length (chain self.old r)) }
        ensures replaced { chains self.new ≡ (if result then slice_set (chains self.old) r (version ∷ drop 1 (chain self.old r)) else chains self.old) }
    {
        self.write(Cursor::front(r), version)
    }
}

// The sorted list: a registry that keeps each open time once, with its number of leases.
#![tactic(auto)]

ghost use Rattle.std.specs.Prelude.{◌≡◌, ◌≤◌, true};
ghost use Rattle.sorted_list.specs.Entries.{times, size, rising, list_capacity, Searched};
ghost use Rattle.std.proofs.Common.{rules, arith};

use arrayvec::ArrayVec;
use lease::fault::RegistryFault;
use lease::registry::Registry;

const PLACES: usize = 32;

// An entry goes with its last lease.
const LAST: u32 = 1;

// A time with its number of leases.
#[derive(Clone, Copy, Default)]
struct Entry {
    time: u32,
    count: u32,
}

// The entries in rising order. Every entry has a lease, so that as many places as leases are enough.
#[derive(Drop)]
pub struct SortedList {
    entries: ArrayVec<Entry, PLACES>,
    ghost few: { size entries.items ≤ list_capacity },
    ghost ordered: { rising entries.items ≡ true },
}

impl SortedList {
    // Where the entry of a time stands, or where it would go. The pass stops at the first entry that is not below the time: among few
    // leases that is sooner than a binary search.
    fn place_of(&self, time: u32) -> Result<usize, usize>
        ensures { Searched time self.now.entries.items result }
    {
        let entries = self.entries.as_slice();
        match entries.iter().position(|e| time <= e.time) {
            Some(i) if entries[i].time == time => Ok(i),
            Some(i) => Err(i),
            None => Err(entries.len()),
        }
    }
}

impl Registry for SortedList {
    const CAPACITY: u32 = PLACES as u32;

    ghost leases = { λ s. times s.entries.items };

    ghost capacity = { list_capacity };

    ghost room = { first_of (Prim.search rules, Prim.grind (arith, Self.row.coded.inj)) };

    fn limit() -> u32 {
        Self::CAPACITY
    }

    fn empty() -> SortedList {
        SortedList {
            entries: ArrayVec::new(),
        }
    }

    fn add(&mut self, time: u32) -> Result<(), RegistryFault> {
        let held = self.total();
        if held >= Self::CAPACITY {
            return Err(RegistryFault::at_capacity(Self::CAPACITY));
        }
        match self.place_of(time) {
            Ok(i) => self.entries[i].count += 1,
            Err(i) => self.entries.insert(i, Entry { time, count: 1 }),
        }
        Ok(())
    }

    fn remove(&mut self, time: u32) -> Result<(), RegistryFault> {
        let Ok(i) = self.place_of(time) else {
            return Err(RegistryFault::not_open(time));
        };
        if self.entries[i].count > LAST {
            self.entries[i].count -= 1;
        } else {
            self.entries.remove(i);
        }
        Ok(())
    }

    fn count_at(&self, time: u32) -> u32 {
        match self.place_of(time) {
            Ok(i) => self.entries[i].count,
            Err(_) => 0,
        }
    }

    fn total(&self) -> u32 {
        self.entries.iter().map(|e| e.count).sum()
    }

    // The first time at or above the time is the least.
    fn least_from(&self, time: u32) -> Option<u32> {
        self.entries.iter().find(|e| time <= e.time).map(|e| e.time)
    }
}

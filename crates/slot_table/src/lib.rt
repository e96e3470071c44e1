// The slot table: a registry with one slot for each lease.
#![tactic(auto)]

ghost use Rattle.slot_table.specs.Slots.{slot_times, slot_count};
ghost use Rattle.std.proofs.Common.{rules};

use lease::fault::RegistryFault;
use lease::registry::Registry;

mod scan;

const SLOTS: usize = 8;

// Each slot is empty or holds the time of one lease; leases at equal times have a slot each.
#[derive(Drop)]
pub struct SlotTable {
    slots: [Option<u32>; SLOTS],
}

impl Registry for SlotTable {
    const CAPACITY: u32 = SLOTS as u32;

    ghost leases = { λ s. slot_times s.slots };

    ghost capacity = { slot_count };

    ghost room = { Prim.search rules };

    fn limit() -> u32 {
        Self::CAPACITY
    }

    fn empty() -> SlotTable {
        SlotTable {
            slots: [None; SLOTS],
        }
    }

    fn add(&mut self, time: u32) -> Result<(), RegistryFault> {
        let Some(i) = scan::free_slot(&self.slots) else {
            return Err(RegistryFault::at_capacity(Self::CAPACITY));
        };
        self.slots[i] = Some(time);
        Ok(())
    }

    fn remove(&mut self, time: u32) -> Result<(), RegistryFault> {
        let Some(i) = scan::slot_of(&self.slots, time) else {
            return Err(RegistryFault::not_open(time));
        };
        self.slots[i] = None;
        Ok(())
    }

    fn count_at(&self, time: u32) -> u32 {
        scan::held_at(&self.slots, time)
    }

    fn total(&self) -> u32 {
        scan::held(&self.slots)
    }

    fn least_from(&self, time: u32) -> Option<u32> {
        scan::least_held(&self.slots, time)
    }
}

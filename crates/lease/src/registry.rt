ghost use Rattle.std.specs.Prelude.{◌≡◌, ℕ, ◌≤◌, List, [], length};
ghost use Rattle.lease.specs.Times.{count, least, Added, Removed};

use crate::fault::RegistryFault;

// How many leases are open at each time; a time is any u32.
pub trait Registry {
    // The most leases that can be open at once.
    const CAPACITY: u32;

    // The open times in rising order, each as often as a lease is open at it.
    ghost leases: { Self → List ℕ };

    ghost capacity: { ℕ };

    // The capacity, which the constant repeats.
    fn limit() -> u32
        ensures { result ≡ capacity };

    // A registry in which no lease is open.
    fn empty() -> Self
        ensures { leases result ≡ [] };

    // Opens one lease at a time.
    fn add(&mut self, time: u32) -> Result<(), RegistryFault>
        ensures { Added capacity leases time self.old result self.new };

    // Ends one lease at a time.
    fn remove(&mut self, time: u32) -> Result<(), RegistryFault>
        ensures { Removed leases time self.old result self.new };

    // How many leases are open at a time.
    fn count_at(&self, time: u32) -> u32
        ensures { result ≡ count time (leases self.now) };

    // How many leases are open in all.
    fn total(&self) -> u32
        ensures { result ≡ length (leases self.now) };

    // The least open time at or above a time, or none.
    fn least_from(&self, time: u32) -> Option<u32>
        ensures { result ≡ least time (leases self.now) };

    ghost room: { 1 ≤ capacity };
}

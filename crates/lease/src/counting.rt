// What holds once for every registry, said in numbers of open leases.
ghost use Rattle.lease.specs.Counting.{Opened, Ended, FirstFrom};

use crate::fault::RegistryFault;
use crate::registry::Registry;

// Opens one lease: one more at that time and in all, or the refusal when the capacity is reached.
pub fn open_at<R: Registry>(registry: &mut R, time: u32) -> Result<(), RegistryFault>
    ensures { Opened R.capacity R.leases time registry.old result registry.new }
{
    registry.add(time)
}

// Ends one lease: one less at that time and in all, or the refusal when none is open there.
pub fn end_at<R: Registry>(registry: &mut R, time: u32) -> Result<(), RegistryFault>
    ensures { Ended R.leases time registry.old result registry.new }
{
    registry.remove(time)
}

// The least open time at or above a time, or none: nothing open lies between.
pub fn first_open<R: Registry>(registry: &R, time: u32) -> Option<u32>
    ensures { FirstFrom time (R.leases registry.now) result }
{
    registry.least_from(time)
}

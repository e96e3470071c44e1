ghost use Rattle.store.specs.Calls.{LeaseOpen};

use history::fault::StoreFault;
use lease::fault::RegistryFault;
use lease::registry::Registry;

// Refuses a time at which no lease is open, as the registry would.
pub(crate) fn ask<R: Registry>(registry: &R, t: u32) -> Result<(), StoreFault>
    ensures { LeaseOpen (R.leases registry.now) t result }
{
    if registry.count_at(t) == 0 {
        return Err(StoreFault::from(RegistryFault::not_open(t)));
    }
    Ok(())
}

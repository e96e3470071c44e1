ghost use Rattle.std.specs.Prelude.{◌≡◌};
ghost use Rattle.store.specs.Calls.{Opens, Reads, Closes};
ghost use Rattle.store.specs.View.{view};

use crate::checks::ask;
use crate::store::Store;
use history::fault::StoreFault;
use kind::Kind;
use lease::registry::Registry;
use lease::token::Lease;

impl<K: Kind> Store<K> {
    // Opens a report: a lease at the clock.
    pub fn open<R: Registry>(&self, registry: &mut R) -> Result<Lease, StoreFault>
        ensures { Opens R.capacity R.leases (view self.now) registry.old result registry.new }
    {
        let t = self.state.clock();
        registry.add(t)?;
        Ok(Lease::take_up(t))
    }

    // Puts the row that a report reads into the given place.
    pub fn read<R: Registry>(
        &self,
        registry: &R,
        lease: &Lease,
        record: u64,
        row: &mut K::Row,
    ) -> Result<(), StoreFault>
        ensures { Reads K.ops (view self.now) (R.leases registry.now) lease.now.time «record» row.old result row.new }
    {
        let i = self.state.place_of(record)?;
        let t = lease.time();
        ask(registry, t)?;
        *row = self.state.reading(i, t);
        Ok(())
    }

    // Closes a report, and prunes every chain. The lease is used up, also when that is refused.
    pub fn close<R: Registry>(&mut self, registry: &mut R, lease: Lease) -> Result<(), StoreFault>
        ensures { Closes K.ops view R.leases lease.time self.old registry.old result self.new registry.new }
    {
        registry.remove(lease.write_down())?;
        self.state.prune_all(registry);
        Ok(())
    }
}

ghost use Rattle.std.specs.Prelude.{◌≡◌};
ghost use Rattle.store.specs.Calls.{Begins, Looks, Changes};
ghost use Rattle.store.specs.View.{view};

use crate::checks::ask;
use crate::store::Store;
use history::fault::{StoreCause, StoreFault};
use kind::Kind;
use lease::registry::Registry;
use lease::token::Writer;

impl<K: Kind> Store<K> {
    // Begins a writer, whose number is the next time.
    pub fn begin<R: Registry>(&mut self, registry: &mut R) -> Result<Writer, StoreFault>
        ensures { Begins K.ops R.capacity view R.leases self.old registry.old result self.new registry.new }
    {
        let now = self.state.clock();
        if now == u32::MAX {
            return Err(StoreCause::ClockLimit.at(u64::from(now)));
        }
        registry.add(now + 1)?;
        self.state.tick();
        Ok(Writer::take_up(now + 1))
    }

    // Puts the row that a writer sees into the given place.
    pub fn look<R: Registry>(
        &self,
        registry: &R,
        writer: &Writer,
        record: u64,
        row: &mut K::Row,
    ) -> Result<(), StoreFault>
        ensures { Looks K.ops (view self.now) (R.leases registry.now) writer.now.time «record» row.old result row.new }
    {
        let i = self.state.place_of(record)?;
        let w = writer.number();
        ask(registry, w)?;
        *row = self.state.looked(i, w);
        Ok(())
    }

    // Edits a record for a writer, which then holds it.
    pub fn change<R: Registry>(
        &mut self,
        registry: &R,
        writer: &Writer,
        record: u64,
        edit: K::Edit,
    ) -> Result<(), StoreFault>
        ensures { Changes K.ops view (R.leases registry.now) writer.now.time «record» edit self.old result self.new }
    {
        let i = self.state.place_of(record)?;
        let w = writer.number();
        ask(registry, w)?;
        self.state.may_change(i, w)?;
        self.state.put(i, w, edit);
        Ok(())
    }
}

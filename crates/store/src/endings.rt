ghost use Rattle.std.specs.Prelude.{◌≡◌};
ghost use Rattle.history.specs.Model.{held_number};
ghost use Rattle.store.specs.Calls.{Ends, Commits, Abandons};
ghost use Rattle.store.specs.View.{view};

use crate::checks::ask;
use crate::store::Store;
use history::fault::{StoreCause, StoreFault};
use kind::Kind;
use lease::registry::Registry;
use lease::token::Writer;

impl<K: Kind> Store<K> {
    // Ends a lease of the writer w, which holds n records, unless its commit is refused.
    fn end_lease<R: Registry>(&self, registry: &mut R, w: u32, n: usize) -> Result<(), StoreFault>
        requires { n ≡ held_number w (view self.now) }
        ensures { Ends (view self.now) R.leases w registry.old result registry.new }
    {
        let now = self.state.clock();
        if n > 0 && now == u32::MAX {
            ask(registry, w)?;
            return Err(StoreCause::ClockLimit.at(u64::from(now)));
        }
        Ok(registry.remove(w)?)
    }

    // Finishes a writer's changes, prunes every chain, and answers the clock and how many records were finished. Refused, it gives the writer back.
    pub fn commit<R: Registry>(
        &mut self,
        registry: &mut R,
        writer: Writer,
    ) -> Result<(u32, usize), (StoreFault, Writer)>
        ensures { Commits K.ops view R.leases writer self.old registry.old result self.new registry.new }
    {
        let w = writer.number();
        let n = self.state.holds(w);
        if let Err(fault) = self.end_lease(registry, w, n) {
            return Err((fault, writer));
        }
        let _number = writer.write_down();
        self.state.finish_held(w, n);
        self.state.prune_all(registry);
        Ok((self.state.clock(), n))
    }

    // Takes a writer's changes back, prunes every chain, and answers how many records are free by that.
    pub fn abandon<R: Registry>(&mut self, registry: &mut R, writer: Writer) -> usize
        ensures { Abandons K.ops view R.leases writer.time self.old registry.old result self.new registry.new }
    {
        let w = writer.write_down();
        let n = self.state.holds(w);
        self.state.free_all(w);
        let _ended = registry.remove(w);
        self.state.prune_all(registry);
        n
    }
}

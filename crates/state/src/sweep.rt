ghost use Rattle.std.specs.Prelude.{◌≡◌};
ghost use Rattle.lease.specs.Times.{opens};
ghost use Rattle.history.specs.Model.{all_pruned};
ghost use Rattle.state.specs.View.{view};

use crate::state::State;
use kind::Kind;
use lease::registry::Registry;
use version_table::prune::{prune_behind, prune_chain};

impl<K: Kind> State<K> {
    // Prunes every chain. By index: with the entries borrowed for the loop the state would stand open in it, and a proof that carries
    // the state's facts through the loop in pieces was tried and did not close.
    pub fn prune_all<R: Registry>(&mut self, registry: &R)
        ensures { view self.new ≡ all_pruned K.ops (opens (R.leases registry.now)) (view self.old) }
    {
        for i in 0..self.records.len() {
            let entry = self.records[i];
            match entry.holder {
                None => prune_chain::<K, R>(&mut self.table, i, registry, entry.row),
                Some(_) => prune_behind::<K, R>(&mut self.table, i, registry, entry.row),
            }
        }
    }
}

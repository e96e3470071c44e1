ghost use Rattle.std.specs.Prelude.{◌≡◌, ◌≤◌, length, drop};
ghost use Rattle.history.specs.Law.{Law};
ghost use Rattle.history.specs.Model.{kept_chains, in_use};
ghost use Rattle.store.specs.Making.{fresh_records, fresh_versions};
ghost use Rattle.store.specs.View.{view};
ghost use Rattle.run.specs.Runs.{calls_of, used_by, asked_from, told_from};

use crate::perform::perform;
use crate::turn::{Turn, wrote};
use kind::Kind;
use lease::registry::Registry;
use store::making::Fresh;
use store::store::Store;

// Performs any journal of calls on a new store with an empty registry, and gives both back. Each call is given what is left of the list,
// and what it writes stays at the front. It never fails, and allocates nothing.
// The law of any run: the outcomes are those that the history has, and in the end the store keeps, for each record, a list of versions that serves it and than which none is shorter.
pub fn run<K: Kind, R: Registry>(
    fresh: Fresh<K>,
    journal: &mut [Turn<K::Edit, K::Row>],
    list: &mut [u32],
) -> (Store<K>, R)
    ensures calls { calls_of journal.new ≡ calls_of journal.old }
    ensures list { (used_by journal.new ≤ length list.old) × (drop (used_by journal.new) list.new ≡ drop (used_by journal.new) list.old) }
    ensures law { Law K.ops R.capacity (fresh_versions fresh) (fresh_records fresh) fresh.start
        (asked_from (length list.old) journal.new) (told_from list.new journal.new)
        (view result.0).clock (R.leases result.1) (kept_chains (view result.0).records) (in_use (view result.0).records) }
{
    let mut store = fresh.store();
    let mut registry = R::empty();
    let mut used = 0;
    // By index: each turn gets its outcome in place, and the law speaks of every turn of the journal.
    for i in 0..journal.len() {
        let turn = journal[i];
        let outcome = perform::<K, R>(&mut store, &mut registry, turn.call, &mut list[used..]);
        journal[i] = Turn {
            call: turn.call,
            outcome,
        };
        used += wrote(outcome);
    }
    (store, registry)
}

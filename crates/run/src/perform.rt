ghost use Rattle.std.specs.Prelude.{◌≡◌, length};
ghost use Rattle.history.specs.Model.{step};
ghost use Rattle.store.specs.View.{view};
ghost use Rattle.run.specs.Steps.{Performed};

use crate::answers;
use history::call::{Call, Outcome};
use kind::Kind;
use lease::registry::Registry;
use store::store::Store;

// Performs one call on a store and a registry, with a list for what Held and Kept write. It never fails, and allocates nothing.
pub fn perform<K: Kind, R: Registry>(
    store: &mut Store<K>,
    registry: &mut R,
    call: Call<K::Edit>,
    list: &mut [u32],
) -> Outcome<K::Row>
    ensures { Performed (step K.ops R.capacity (view store.old) (R.leases registry.old) (length list.old) call) result (view store.new) (R.leases registry.new) list.old list.new }
{
    match call {
        Call::Open => answers::open(store, registry),
        Call::Read(t, record) => answers::read(store, registry, t, record),
        Call::Close(t) => answers::close(store, registry, t),
        Call::Begin => answers::begin(store, registry),
        Call::Look(w, record) => answers::look(store, registry, w, record),
        Call::Change(w, record, edit) => answers::change(store, registry, w, record, edit),
        Call::Commit(w) => answers::commit(store, registry, w),
        Call::Abandon(w) => answers::abandon(store, registry, w),
        Call::Held(w) => answers::held(store, registry, w, list),
        Call::Kept(record) => answers::kept(store, registry, record, list),
        Call::InUse => Outcome::InUse(store.in_use()),
    }
}

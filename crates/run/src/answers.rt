// Each call by its arguments alone, with its outcome as a value. Tokens are taken up and written down here.
// The store and the registry stay two parameters: every call of a store takes the registry that the caller has.
// An outcome is made by a match in each call: carried out of it in a Result, it was copied twice, which took longer than most calls.
ghost use Rattle.std.specs.Prelude.{◌≡◌, length};
ghost use Rattle.history.specs.Model.{refusal, step};
ghost use Rattle.store.specs.View.{view};
ghost use Rattle.run.specs.Steps.{Performed, Plain};

use history::call::{Call, Outcome};
use history::fault::StoreFault;
use kind::Kind;
use lease::registry::Registry;
use lease::token::{Lease, Writer};
use store::store::Store;

// A refusal as an outcome.
pub fn refused<Row: Copy>(fault: StoreFault) -> Outcome<Row>
    ensures { result ≡ (refusal fault).outcome }
{
    Outcome::Refused(fault)
}

pub(crate) fn open<K: Kind, R: Registry>(store: &Store<K>, registry: &mut R) -> Outcome<K::Row>
    ensures { Plain (step K.ops R.capacity (view store.now) (R.leases registry.old) 0 Call.Open) result (view store.now) (R.leases registry.new) }
{
    match store.open(registry) {
        Ok(lease) => Outcome::Opened(lease.write_down()),
        Err(fault) => refused(fault),
    }
}

pub(crate) fn read<K: Kind, R: Registry>(
    store: &Store<K>,
    registry: &R,
    t: u32,
    record: u64,
) -> Outcome<K::Row>
    ensures { Plain (step K.ops R.capacity (view store.now) (R.leases registry.now) 0 (Call.Read t «record»)) result (view store.now) (R.leases registry.now) }
{
    let lease = Lease::take_up(t);
    let mut row = K::blank();
    let done = store.read(registry, &lease, record, &mut row);
    let _time = lease.write_down();
    match done {
        Ok(_) => Outcome::Shown(row),
        Err(fault) => refused(fault),
    }
}

pub(crate) fn close<K: Kind, R: Registry>(
    store: &mut Store<K>,
    registry: &mut R,
    t: u32,
) -> Outcome<K::Row>
    ensures { Plain (step K.ops R.capacity (view store.old) (R.leases registry.old) 0 (Call.Close t)) result (view store.new) (R.leases registry.new) }
{
    match store.close(registry, Lease::take_up(t)) {
        Ok(_) => Outcome::Closed,
        Err(fault) => refused(fault),
    }
}

pub(crate) fn begin<K: Kind, R: Registry>(store: &mut Store<K>, registry: &mut R) -> Outcome<K::Row>
    ensures { Plain (step K.ops R.capacity (view store.old) (R.leases registry.old) 0 Call.Begin) result (view store.new) (R.leases registry.new) }
{
    match store.begin(registry) {
        Ok(writer) => Outcome::Began(writer.write_down()),
        Err(fault) => refused(fault),
    }
}

pub(crate) fn look<K: Kind, R: Registry>(
    store: &Store<K>,
    registry: &R,
    w: u32,
    record: u64,
) -> Outcome<K::Row>
    ensures { Plain (step K.ops R.capacity (view store.now) (R.leases registry.now) 0 (Call.Look w «record»)) result (view store.now) (R.leases registry.now) }
{
    let writer = Writer::take_up(w);
    let mut row = K::blank();
    let done = store.look(registry, &writer, record, &mut row);
    let _number = writer.write_down();
    match done {
        Ok(_) => Outcome::Shown(row),
        Err(fault) => refused(fault),
    }
}

pub(crate) fn change<K: Kind, R: Registry>(
    store: &mut Store<K>,
    registry: &R,
    w: u32,
    record: u64,
    edit: K::Edit,
) -> Outcome<K::Row>
    ensures { Plain (step K.ops R.capacity (view store.old) (R.leases registry.now) 0 (Call.Change w «record» edit)) result (view store.new) (R.leases registry.now) }
{
    let writer = Writer::take_up(w);
    let done = store.change(registry, &writer, record, edit);
    let _number = writer.write_down();
    match done {
        Ok(_) => Outcome::Changed,
        Err(fault) => refused(fault),
    }
}

pub(crate) fn commit<K: Kind, R: Registry>(
    store: &mut Store<K>,
    registry: &mut R,
    w: u32,
) -> Outcome<K::Row>
    ensures { Plain (step K.ops R.capacity (view store.old) (R.leases registry.old) 0 (Call.Commit w)) result (view store.new) (R.leases registry.new) }
{
    match store.commit(registry, Writer::take_up(w)) {
        Ok((clock, n)) => Outcome::Committed(clock, n),
        Err((fault, writer)) => {
            let _number = writer.write_down();
            refused(fault)
        }
    }
}

pub(crate) fn abandon<K: Kind, R: Registry>(
    store: &mut Store<K>,
    registry: &mut R,
    w: u32,
) -> Outcome<K::Row>
    ensures { Plain (step K.ops R.capacity (view store.old) (R.leases registry.old) 0 (Call.Abandon w)) result (view store.new) (R.leases registry.new) }
{
    Outcome::Abandoned(store.abandon(registry, Writer::take_up(w)))
}

pub(crate) fn held<K: Kind, R: Registry>(
    store: &Store<K>,
    registry: &R,
    w: u32,
    list: &mut [u32],
) -> Outcome<K::Row>
    ensures { Performed (step K.ops R.capacity (view store.now) (R.leases registry.now) (length list.old) (Call.Held w)) result (view store.now) (R.leases registry.now) list.old list.new }
{
    let writer = Writer::take_up(w);
    let done = store.held(&writer, list);
    let _number = writer.write_down();
    match done {
        Ok(n) => Outcome::Held(n),
        Err(fault) => refused(fault),
    }
}

pub(crate) fn kept<K: Kind, R: Registry>(
    store: &Store<K>,
    registry: &R,
    record: u64,
    list: &mut [u32],
) -> Outcome<K::Row>
    ensures { Performed (step K.ops R.capacity (view store.now) (R.leases registry.now) (length list.old) (Call.Kept «record»)) result (view store.now) (R.leases registry.now) list.old list.new }
{
    match store.kept(record, list) {
        Ok(n) => Outcome::Kept(n),
        Err(fault) => refused(fault),
    }
}

use kind::Kind;
use state::state::State;

// A store of records of one kind: newest rows in place, and chains of versions that lead back from them.
#[derive(Drop)]
pub struct Store<K: Kind> {
    pub(crate) state: State<K>,
}

ghost use Rattle.std.specs.Prelude.{◌≡◌, true, length, nat_le};
ghost use Rattle.version_table.specs.Chains.{chains};
ghost use Rattle.state.specs.Matched.{matched};
ghost use Rattle.state.specs.Stored.{viewed, all_fall};

use crate::entry::Entry;
use kind::Kind;
use version_table::table::VersionTable;

// The clock, the records, and one chain for each record. A held record's change is the first of its chain.
#[derive(Drop)]
pub struct State<K: Kind> {
    pub(crate) clock: u32,
    pub(crate) records: Vec<Entry<K::Row>>,
    pub(crate) table: VersionTable<K::Change>,
    ghost sound: { matched records.items (chains table) ≡ true },
    ghost falling: { all_fall clock (viewed records.items (chains table)) ≡ true },
    ghost few: { nat_le (length records.items) 4096 ≡ true },
}

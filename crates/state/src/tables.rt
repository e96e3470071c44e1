ghost use Rattle.std.specs.Prelude.{◌≡◌, true, length, sum_by, nat_le};
ghost use Rattle.version_table.specs.Chains.{chains};

use crate::entry::Entry;
use kind::Kind;
use version_table::table::VersionTable;

// A record table and a version table in which nothing was put yet.
#[derive(Drop)]
pub struct Tables<K: Kind> {
    pub(crate) records: Vec<Entry<K::Row>>,
    pub(crate) table: VersionTable<K::Change>,
    ghost unused: { sum_by length (chains table) ≡ 0 },
    ghost paired: { length (chains table) ≡ length records.items },
    ghost few: { nat_le (length records.items) 4096 ≡ true },
}

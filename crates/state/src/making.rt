ghost use Rattle.std.specs.Prelude.{◌≡◌, ℕ, ◌≤◌, IfOk};
ghost use Rattle.history.specs.Model.{new_model};
ghost use Rattle.state.specs.View.{view, table_records, table_versions};

use crate::entry::Entry;
use crate::state::State;
use crate::tables::Tables;
use chain::version::Version;
use kind::Kind;
use std::alloc::{AllocError, Global};
use version_table::table::VersionTable;

impl<K: Kind> Tables<K> {
    // Tables for so many records and versions.
    pub fn make(heap: Global, records: usize, versions: usize) -> Result<Tables<K>, AllocError>
        requires { (records ≤ 4096) × ((1 ≤ versions) × (versions ≤ 16384)) }
        ensures { IfOk result (λ t. (table_records t ≡ records) × (table_versions t ≡ versions)) }
    {
        let blank = Entry {
            row: K::blank(),
            last: 0,
            holder: None,
        };
        // Copied, and not cloned as by `vec!`: a kind does not promise that a clone of its rows cannot fail.
        let all = (0..records).map(|_record| blank).collect(heap)?;
        let table = VersionTable::new(
            heap,
            records,
            versions,
            Version {
                time: 0,
                change: K::no_change(),
            },
        )?;
        Ok(Tables {
            records: all,
            table,
        })
    }

    // A state of blank records, finished at the start.
    pub fn start(self, start: u32) -> State<K>
        ensures { view result ≡ new_model K.ops (table_records self) (table_versions self) start }
    {
        let Tables { mut records, table } = self;
        // By index: `fill` wants a clone that cannot fail, and a kind does not promise that of its rows.
        for i in 0..records.len() {
            records[i] = Entry {
                row: K::blank(),
                last: start,
                holder: None,
            };
        }
        State {
            clock: start,
            records,
            table,
        }
    }
}

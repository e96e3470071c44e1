ghost use Rattle.std.specs.Prelude.{◌≡◌, ◌<◌, length, None, sum_by, ◌≢◌};
ghost use Rattle.version_table.specs.Chains.{chains, chain, capacity, Sets};
ghost use Rattle.history.specs.Model.{changed, begun, refused_own};
ghost use Rattle.state.specs.Matched.{Room, stacked};
ghost use Rattle.state.specs.View.{view, Owned};

use crate::entry::Entry;
use crate::state::State;
use chain::version::Version;
use history::fault::{StoreCause, StoreFault};
use kind::Kind;
use version_table::table::VersionTable;

// Puts a change in front of the chain r, or joins it with the holder's.
fn stack<K: Kind>(
    table: &mut VersionTable<K::Change>,
    r: usize,
    holder: Option<u32>,
    newest: Version<K::Change>,
)
    requires within { r < length (chains table.old) }
    requires room { Room holder (chain table.old r) (sum_by length (chains table.old)) (capacity table.old) }
    ensures { Sets table.old r (stacked K.ops holder newest (chain table.old r)) table.new }
{
    match holder {
        None => {
            let _kept = table.push(r, newest);
        }
        Some(_) => {
            if let Some(own) = table.front(r) {
                let change = K::join(newest.change, own.change);
                let _kept = table.replace(
                    r,
                    Version {
                        time: newest.time,
                        change,
                    },
                );
            }
        }
    }
}

impl<K: Kind> State<K> {
    // The clock rises by one.
    pub fn tick(&mut self)
        requires { (view self.old).clock ≢ 4294967295 }
        ensures { view self.new ≡ begun K.ops (view self.old) }
    {
        self.clock += 1;
    }

    // Refuses a record that the writer may not change, or for which no version is left.
    pub fn may_change(&self, i: usize, w: u32) -> Result<(), StoreFault>
        requires { i < length (view self.now).records }
        ensures { Owned K.ops (view self.now) w i result }
    {
        let entry = self.records[i];
        let last = entry.last;
        let place = i as u64;
        match entry.holder {
            Some(v) if v != w => Err(StoreCause::HeldByOther.at(place)),
            _ if w < last => Err(StoreCause::RowNewer.at(place)),
            None if self.table.is_full() => Err(StoreCause::VersionsUsed.at(place)),
            _ => Ok(()),
        }
    }

    // Edits the row in place. The writer's change of the record is the first of its chain.
    pub fn put(&mut self, i: usize, w: u32, edit: K::Edit)
        requires within { i < length (view self.old).records }
        requires owned { refused_own K.ops (view self.old) w i ≡ None }
        ensures { view self.new ≡ changed K.ops (view self.old) w i edit }
    {
        let entry = self.records[i];
        let (row, change) = K::edit(entry.row, edit);
        stack::<K>(
            &mut self.table,
            i,
            entry.holder,
            Version { time: w, change },
        );
        self.records[i] = Entry {
            row,
            last: entry.last,
            holder: Some(w),
        };
    }
}

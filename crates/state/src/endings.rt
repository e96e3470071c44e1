ghost use Rattle.std.specs.Prelude.{◌≡◌, ℕ, ◌+◌, ◌<◌, length, drop, ◌≢◌};
ghost use Rattle.version_table.specs.Chains.{chains, chain, Sets};
ghost use Rattle.history.specs.Model.{every, finish_stored, free_stored, finished};
ghost use Rattle.state.specs.Matched.{stamped, taken_back};
ghost use Rattle.state.specs.Steps.{one_changed};
ghost use Rattle.state.specs.View.{view};

use crate::entry::Entry;
use crate::state::State;
use chain::version::Version;
use kind::Kind;
use version_table::table::VersionTable;

// Gives the first version of the chain r the time t.
fn stamp<C: Copy>(table: &mut VersionTable<C>, r: usize, t: u32)
    requires { r < length (chains table.old) }
    ensures { Sets table.old r (stamped t (chain table.old r)) table.new }
{
    if let Some(own) = table.front(r) {
        let _kept = table.replace(
            r,
            Version {
                time: t,
                change: own.change,
            },
        );
    }
}

// Takes the first version of the chain r out, and undoes it.
fn take_back<K: Kind>(table: &mut VersionTable<K::Change>, r: usize, row: K::Row) -> K::Row
    requires { r < length (chains table.old) }
    ensures taken { Sets table.old r (drop 1 (chain table.old r)) table.new }
    ensures row { result ≡ taken_back K.ops row (chain table.old r) }
{
    match table.pop(r) {
        Some(own) => K::undo(row, own.change),
        None => row,
    }
}

impl<K: Kind> State<K> {
    // Finishes the writer w's change of the record i at the time t, which is the clock, if there is one.
    fn finish(&mut self, i: usize, w: u32, t: u32)
        requires within { i < length (view self.old).records }
        requires latest { t ≡ (view self.old).clock }
        ensures { view self.new ≡ one_changed (finish_stored K.ops w t) i (view self.old) }
    {
        let entry = self.records[i];
        if entry.holder == Some(w) {
            stamp(&mut self.table, i, t);
            self.records[i] = Entry {
                row: entry.row,
                last: t,
                holder: None,
            };
        }
    }

    // Takes the writer w's change of the record i back, if there is one.
    fn free(&mut self, i: usize, w: u32)
        requires { i < length (view self.old).records }
        ensures { view self.new ≡ one_changed (free_stored K.ops w) i (view self.old) }
    {
        let entry = self.records[i];
        if entry.holder == Some(w) {
            let row = take_back::<K>(&mut self.table, i, entry.row);
            self.records[i] = Entry {
                row,
                last: entry.last,
                holder: None,
            };
        }
    }

    // Finishes every change of the writer w at the time t, which is the clock. By index: each step writes the record and its chain.
    // One loop over a closure would be no plainer than this and the next: its contract would have to say what state each step meets.
    fn finish_all(&mut self, w: u32, t: u32)
        requires { t ≡ (view self.old).clock }
        ensures { view self.new ≡ every K.ops (finish_stored K.ops w t) (view self.old) }
    {
        for i in 0..self.records.len() {
            self.finish(i, w, t);
        }
    }

    // Takes every change of the writer w back.
    pub fn free_all(&mut self, w: u32)
        ensures { view self.new ≡ every K.ops (free_stored K.ops w) (view self.old) }
    {
        for i in 0..self.records.len() {
            self.free(i, w);
        }
    }

    // Finishes the changes of the writer w, which holds n records, one time later.
    pub fn finish_held(&mut self, w: u32, n: usize)
        requires { 0 < n → (view self.old).clock ≢ 4294967295 }
        ensures { view self.new ≡ finished K.ops n w (view self.old) }
    {
        if n > 0 {
            self.clock += 1;
            let t = self.clock;
            self.finish_all(w, t);
        }
    }
}

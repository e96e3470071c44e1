ghost use Rattle.std.specs.Prelude.{◌≡◌, ◌<◌, length};
ghost use Rattle.history.specs.Model.{in_use, held_number, record_at};
ghost use Rattle.state.specs.View.{view};

use crate::state::State;
use kind::Kind;

impl<K: Kind> State<K> {
    // All kept versions and held records.
    pub fn in_use(&self) -> usize
        ensures { result ≡ in_use (view self.now).records }
    {
        self.table.used()
    }

    // How many records the writer w holds.
    pub fn holds(&self, w: u32) -> usize
        ensures { result ≡ held_number w (view self.now) }
    {
        self.records
            .iter()
            .filter(|entry| entry.holder == Some(w))
            .count()
    }

    // How many versions the chain of the record i has.
    pub fn versions(&self, i: usize) -> usize
        requires { i < length (view self.now).records }
        ensures { result ≡ length (record_at K.ops (view self.now) i).chain }
    {
        let all = self.table.len(i);
        match self.records[i].holder {
            Some(_) => all - 1,
            None => all,
        }
    }
}

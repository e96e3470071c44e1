ghost use Rattle.std.specs.Prelude.{◌≡◌, ◌<◌, length};
ghost use Rattle.history.specs.Model.{reading, looks, record_at};
ghost use Rattle.state.specs.View.{view, Placed};

use crate::state::State;
use history::fault::{StoreCause, StoreFault};
use kind::Kind;
use version_table::walk::lead_back;

impl<K: Kind> State<K> {
    // The clock.
    pub fn clock(&self) -> u32
        ensures { result ≡ (view self.now).clock }
    {
        self.clock
    }

    // Refuses a number that is no record's; else it is the record's place.
    pub fn place_of(&self, record: u64) -> Result<usize, StoreFault>
        ensures { Placed (view self.now) «record» result }
    {
        if record >= self.records.len() as u64 {
            return Err(StoreCause::NoRecord.at(record));
        }
        Ok(record as usize)
    }

    // What the record i reads at the time t.
    pub fn reading(&self, i: usize, t: u32) -> K::Row
        requires { i < length (view self.now).records }
        ensures { result ≡ reading K.ops (record_at K.ops (view self.now) i) t }
    {
        let entry = self.records[i];
        let mut versions = self.table.chain(i);
        let finished = match entry.holder {
            None => entry.row,
            Some(_) => match versions.next() {
                None => entry.row,
                Some(own) => K::undo(entry.row, own.change),
            },
        };
        lead_back::<K>(versions, t, finished)
    }

    // What the writer w sees of the record i.
    pub fn looked(&self, i: usize, w: u32) -> K::Row
        requires { i < length (view self.now).records }
        ensures { result ≡ looks K.ops (record_at K.ops (view self.now) i) w }
    {
        let entry = self.records[i];
        match entry.holder {
            Some(v) if v == w => entry.row,
            _ => self.reading(i, w),
        }
    }
}

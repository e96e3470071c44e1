ghost use Rattle.std.specs.Prelude.{◌≡◌};
ghost use Rattle.history.specs.Model.{in_use};
ghost use Rattle.store.specs.Calls.{Keeps, Holds};
ghost use Rattle.store.specs.View.{view};

use crate::store::Store;
use history::fault::{StoreCause, StoreFault};
use kind::Kind;
use lease::token::Writer;

impl<K: Kind> Store<K> {
    // Writes the records that a writer holds at the front of a list, and answers how many.
    pub fn held(&self, writer: &Writer, out: &mut [u32]) -> Result<usize, StoreFault>
        ensures { Holds (view self.now) writer.now.time out.old result out.new }
    {
        let w = writer.number();
        let needed = self.state.holds(w);
        if out.len() < needed {
            return Err(StoreCause::ListShort.at(needed as u64));
        }
        Ok(self.state.write_held(w, out))
    }

    // Writes the times of a record's versions at the front of a list, the newest first, and answers how many.
    pub fn kept(&self, record: u64, out: &mut [u32]) -> Result<usize, StoreFault>
        ensures { Keeps K.ops (view self.now) «record» out.old result out.new }
    {
        let i = self.state.place_of(record)?;
        let needed = self.state.versions(i);
        if out.len() < needed {
            return Err(StoreCause::ListShort.at(needed as u64));
        }
        Ok(self.state.write_times(i, out))
    }

    // All kept versions and held records.
    pub fn in_use(&self) -> usize
        ensures { result ≡ in_use (view self.now).records }
    {
        self.state.in_use()
    }
}

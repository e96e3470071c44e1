// Refusals as text: NUMBER LAYER PLACE, as `7 B 2`.
ghost use Rattle.std.specs.Prelude.{Some};
ghost use Rattle.history.specs.Shown.{fault_text};

use crate::fault::StoreFault;
use std::fmt;

impl fmt::Display for StoreFault {
    ghost output = { λ x. Some (fault_text x) };

    fn fmt<W: fmt::Write>(&self, f: &mut fmt::Formatter<W>) -> fmt::Result {
        let number = self.number();
        let layer = self.layer();
        let place = self.place;
        write!(f, "{number} {layer} {place}")
    }
}

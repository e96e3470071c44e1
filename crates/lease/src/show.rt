// Refusals as text: NUMBER LAYER PLACE, as `4 R 2`.
ghost use Rattle.std.specs.Prelude.{Some};
ghost use Rattle.lease.specs.Shown.{layer_letter, fault_text};

use crate::fault::{Layer, RegistryFault};
use std::fmt;

impl fmt::Display for Layer {
    ghost output = { λ x. Some (layer_letter x) };

    fn fmt<W: fmt::Write>(&self, f: &mut fmt::Formatter<W>) -> fmt::Result {
        match self {
            Layer::Registry => write!(f, "R"),
            Layer::Store => write!(f, "B"),
            Layer::Script => write!(f, "S"),
        }
    }
}

impl fmt::Display for RegistryFault {
    ghost output = { λ x. Some (fault_text x) };

    fn fmt<W: fmt::Write>(&self, f: &mut fmt::Formatter<W>) -> fmt::Result {
        let number = self.number();
        let layer = self.layer();
        let place = self.place;
        write!(f, "{number} {layer} {place}")
    }
}

ghost use Rattle.std.specs.Prelude.{Some};
ghost use Rattle.script.specs.Shown.{refused_text, fault_text};

use crate::fault::{Refusal, ScriptFault};
use std::fmt;

// A refusal prints as its number, its layer, its place and its line.
impl fmt::Display for Refusal {
    ghost output = { λ r. Some (refused_text r.number r.layer r.place r.line) };

    fn fmt<W: fmt::Write>(&self, f: &mut fmt::Formatter<W>) -> fmt::Result {
        let number = self.number;
        let layer = self.layer;
        let place = self.place;
        let line = self.line;
        write!(f, "refused {number} {layer} {place} at {line}")
    }
}

impl fmt::Display for ScriptFault {
    ghost output = { λ f. Some (fault_text f) };

    fn fmt<W: fmt::Write>(&self, f: &mut fmt::Formatter<W>) -> fmt::Result {
        self.refusal().fmt(f)
    }
}

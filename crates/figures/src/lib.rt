// Eight figures worked by hand, which hold of the very definitions that the contracts of kinds and chains cite.
#![tactic(auto)]

ghost use Rattle.std.specs.Prelude.{◌≡◌};
ghost use Rattle.figures.specs.Figures.{Figures};

use fields::{Attributes, Fields, Patch};
use kind::Kind;

// All eight figures stand; the answer is the first one's, worked by the code: the weight that undoing {3: 8500} leaves at attribute 3.
pub fn figures_stand() -> u32
    ensures figures { Figures }
    ensures first { result ≡ 8500 }
{
    let weighed = Attributes {
        values: [0, 0, 0, 8700, 0, 0, 0, 0],
    };
    let change = Patch {
        mask: 8,
        values: [0, 0, 0, 8500, 0, 0, 0, 0],
    };
    let before = Fields::undo(weighed, change);
    before.values[3]
}

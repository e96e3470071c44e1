ghost use Rattle.std.specs.Prelude.{◌≡◌};
ghost use Rattle.account.specs.Edits.{weight_set, axles_set, load_added, weight_told};

use fields::{ATTRIBUTES, Attributes, Patch, numbers};
use tallies::Counts;

// The places of the attributes that the account speaks of.
const AXLES: usize = 1;

const EMPTY_WEIGHT: usize = 3;

// Sets a truck's empty weight.
pub fn weight(kg: u32) -> Patch
    ensures { result ≡ weight_set kg }
{
    let mut values = [0; ATTRIBUTES];
    values[EMPTY_WEIGHT] = kg;
    Patch {
        mask: 1 << EMPTY_WEIGHT,
        values,
    }
}

// Sets a truck's number of axles and its empty weight.
pub fn axles_and_weight(axles: u32, kg: u32) -> Patch
    ensures { result ≡ axles_set axles kg }
{
    let mut values = [0; ATTRIBUTES];
    values[AXLES] = axles;
    values[EMPTY_WEIGHT] = kg;
    Patch {
        mask: 1 << AXLES | 1 << EMPTY_WEIGHT,
        values,
    }
}

// Adds loads and tonnage to a yard's counters.
pub fn load(loads: u64, kg: u64) -> Counts
    ensures { result ≡ load_added loads kg }
{
    Counts {
        values: [loads, kg, 0, 0],
    }
}

// The empty weight that a truck's row tells.
pub fn empty_weight(row: Attributes) -> u32
    ensures { result ≡ weight_told row }
{
    numbers(row)[EMPTY_WEIGHT]
}

ghost use Rattle.std.specs.Prelude.{◌≡◌, ℕ, length, slice_index};
ghost use Rattle.script.specs.Kinds.{Terms, fields_terms, tallies_terms};
ghost use Rattle.std.proofs.Common.{rules};

use fields::{Attributes, Fields, Patch};
use kind::Kind;
use tallies::{Counts, Tallies};

// A kind that scripts can speak of: by attributes, values and the numbers of a row.
pub trait ScriptKind: Kind {
    ghost terms: { Terms Self.Edit };

    ghost LAST_ATTRIBUTE: { ℕ };

    // The number of the last attribute.
    const LAST_ATTRIBUTE: u64;

    ghost MOST: { ℕ };

    // The largest value.
    const MOST: u64;

    ghost NUMBERS: { ℕ };

    // How many numbers a row tells.
    const NUMBERS: usize;

    // The edit of one attribute.
    fn set(attribute: u64, value: u64) -> Self::Edit
        ensures { result ≡ terms.set attribute value };

    // A number of those that a row tells, or 0 past the last. One by one: a row of any kind cannot be lent as a slice.
    fn number(row: Self::Row, i: usize) -> u64
        ensures { result ≡ slice_index (Self.ops.tells row) i };

    // The constants are those of the terms.
    ghost constants: { (LAST_ATTRIBUTE ≡ terms.attributes) × ((MOST ≡ terms.values) × (NUMBERS ≡ terms.numbers)) };

    // A row tells this many numbers.
    ghost wide: { (r : Self.Row) → length (Self.ops.tells r) ≡ terms.numbers };
}

impl ScriptKind for Fields {
    ghost terms = { fields_terms };

    ghost wide = { Prim.search rules };

    ghost LAST_ATTRIBUTE = { 7 };

    const LAST_ATTRIBUTE: u64 = 7;

    ghost MOST = { 4294967295 };

    const MOST: u64 = 4294967295;

    ghost NUMBERS = { 8 };

    const NUMBERS: usize = 8;

    ghost constants = { Prim.search rules };

    fn set(attribute: u64, value: u64) -> Patch {
        let mask = if attribute < 8 { 1 << attribute } else { 0 };
        Patch {
            mask,
            values: [(value % 4294967296) as u32; 8],
        }
    }

    fn number(row: Attributes, i: usize) -> u64 {
        if i < 8 { row.values[i] as u64 } else { 0 }
    }
}

impl ScriptKind for Tallies {
    ghost terms = { tallies_terms };

    ghost wide = { Prim.search rules };

    ghost LAST_ATTRIBUTE = { 3 };

    const LAST_ATTRIBUTE: u64 = 3;

    ghost MOST = { 18446744073709551615 };

    const MOST: u64 = u64::MAX;

    ghost NUMBERS = { 4 };

    const NUMBERS: usize = 4;

    ghost constants = { Prim.search rules };

    fn set(attribute: u64, value: u64) -> Counts {
        let mut values = [0; 4];
        if attribute < 4 {
            values[attribute as usize] = value;
        }
        Counts { values }
    }

    fn number(row: Counts, i: usize) -> u64 {
        if i < 4 { row.values[i] } else { 0 }
    }
}

// Eight attributes, set through masks: the kind of a truck's empty weights.
#![tactic(auto)]

ghost use Rattle.std.specs.Prelude.{◌≡◌};
ghost use Rattle.kind.specs.Tables.{table};
ghost use Rattle.fields.specs.Masks.{either_at};
ghost use Rattle.fields.specs.Fields.{fields_ops, fields_tells, patch};
ghost use Rattle.fields.specs.Laws.{fields_laws};

use kind::Kind;
use std::array;

pub const ATTRIBUTES: usize = 8;

// The eight attributes of a record.
#[derive(Clone, Copy, Default, PartialEq, Eq, Debug)]
pub struct Attributes {
    pub values: [u32; ATTRIBUTES],
}

// Values for the attributes whose bit in the mask is set: an edit, which may hold anything elsewhere, or a change, with zeros there.
#[derive(Clone, Copy, Default, PartialEq, Eq, Debug)]
pub struct Patch {
    pub mask: u8,
    pub values: [u32; ATTRIBUTES],
}

// The kind.
pub struct Fields;

impl Kind for Fields {
    type Row = Attributes;

    type Edit = Patch;

    type Change = Patch;

    ghost ops = { fields_ops };

    ghost laws = { fields_laws };

    fn blank() -> Attributes {
        Attributes::default()
    }

    fn edit(row: Attributes, edit: Patch) -> (Attributes, Patch) {
        (
            Attributes {
                values: either(edit.mask, edit.values, row.values),
            },
            Patch {
                mask: edit.mask,
                values: either(edit.mask, row.values, [0; ATTRIBUTES]),
            },
        )
    }

    fn undo(row: Attributes, change: Patch) -> Attributes {
        Attributes {
            values: either(change.mask, change.values, row.values),
        }
    }

    fn join(newer: Patch, older: Patch) -> Patch {
        let of_newer = either(newer.mask, newer.values, [0; ATTRIBUTES]);
        Patch {
            mask: newer.mask | older.mask,
            values: either(older.mask, older.values, of_newer),
        }
    }

    fn no_change() -> Patch {
        Patch::default()
    }

    fn same(a: Attributes, b: Attributes) -> bool {
        numbers(a) == numbers(b)
    }
}

// At each attribute the value inside where the mask has its bit, else the one outside.
fn either(mask: u8, inside: [u32; ATTRIBUTES], outside: [u32; ATTRIBUTES]) -> [u32; ATTRIBUTES]
    ensures { result ≡ table 8 (either_at mask inside outside) }
{
    array::from_fn(|i| if mask >> i & 1 == 1 {
        inside[i]
    } else {
        outside[i]
    })
}

// The eight numbers that a row tells.
pub fn numbers(row: Attributes) -> [u32; ATTRIBUTES]
    ensures { result ≡ fields_tells row }
{
    row.values
}

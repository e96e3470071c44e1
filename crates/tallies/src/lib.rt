// Four counters modulo 2^64: the kind of a yard's loads and tonnage.
#![tactic(auto)]

ghost use Rattle.std.specs.Prelude.{◌≡◌, ℕ, ◌<◌, slice_index};
ghost use Rattle.tallies.specs.Tallies.{tallies_ops, tallies_tells};
ghost use Rattle.tallies.specs.Laws.{tallies_laws};

use kind::Kind;
use std::array;

pub const COUNTERS: usize = 4;

// Four numbers: a row's counters, what an edit adds to them, or what a change takes off again.
#[derive(Clone, Copy, Default, PartialEq, Eq, Debug)]
pub struct Counts {
    pub values: [u64; COUNTERS],
}

// The kind.
pub struct Tallies;

impl Kind for Tallies {
    type Row = Counts;

    type Edit = Counts;

    type Change = Counts;

    ghost ops = { tallies_ops };

    ghost laws = { tallies_laws };

    fn blank() -> Counts {
        Counts::default()
    }

    fn edit(row: Counts, edit: Counts) -> (Counts, Counts) {
        (each(row, edit, |x, y| x.wrapping_add(y)), edit)
    }

    fn undo(row: Counts, change: Counts) -> Counts {
        each(row, change, |x, y| x.wrapping_sub(y))
    }

    fn join(newer: Counts, older: Counts) -> Counts {
        each(newer, older, |x, y| x.wrapping_add(y))
    }

    fn no_change() -> Counts {
        Self::blank()
    }

    fn same(a: Counts, b: Counts) -> bool {
        numbers(a) == numbers(b)
    }
}

// One operation at each counter of two rows.
fn each<F: Fn(u64, u64) -> u64>(x: Counts, y: Counts, op: F) -> Counts
    requires { F.IsAlwaysCallable op }
    ensures { (i : ℕ) → i < 4 → F.post op (slice_index x.values i) (slice_index y.values i) (slice_index result.values i) }
{
    Counts {
        values: array::from_fn(|i| op(x.values[i], y.values[i])),
    }
}

// The four numbers that a row tells.
pub fn numbers(row: Counts) -> [u64; COUNTERS]
    ensures { result ≡ tallies_tells row }
{
    row.values
}

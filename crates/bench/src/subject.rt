// What the workload wants of a kind beside its rows and changes: edits drawn from a generator, and a row's numbers for the checksum.
// A match on a style has the data of one case in each arm, and a number that is drawn below a bound is cast, which loses nothing.
use crate::generator::Generator;
use crate::plan::Style;
use crate::tally::Tally;
use fields::{Attributes, Fields, Patch};
use kind::Kind;
use std::array;
use tallies::{Counts, Tallies};

pub(crate) trait Subject: Kind {
    fn name() -> &'static str;

    fn draw(style: Style, from: &mut Generator) -> Self::Edit;

    fn take_row(tally: &mut Tally, row: Self::Row);
}

impl Subject for Fields {
    fn name() -> &'static str {
        "fields"
    }

    fn draw(style: Style, from: &mut Generator) -> Patch {
        let mask = match style {
            Style::Whole => 255,
            Style::Back | Style::One => 1 << from.below(8),
            Style::Some => from.below(256) as u8,
        };
        let values = array::from_fn(|_i| match style {
            Style::Back => from.below(2) as u32,
            _ => from.wide(),
        });
        Patch { mask, values }
    }

    fn take_row(tally: &mut Tally, row: Attributes) {
        for value in row.values {
            tally.take(u64::from(value));
        }
    }
}

// One of four counters, the others 0.
fn one_counter(from: &mut Generator) -> [u64; 4] {
    let c = from.place(4);
    let mut values = [0; 4];
    values[c] = from.draw();
    values
}

impl Subject for Tallies {
    fn name() -> &'static str {
        "tallies"
    }

    fn draw(style: Style, from: &mut Generator) -> Counts {
        let values = match style {
            Style::Whole => array::from_fn(|_i| from.draw()),
            Style::Back => array::from_fn(|_i| match from.below(3) {
                0 => 0,
                1 => 1,
                _ => u64::MAX,
            }),
            Style::One => one_counter(from),
            Style::Some => array::from_fn(|_i| from.below(1000)),
        };
        Counts { values }
    }

    fn take_row(tally: &mut Tally, row: Counts) {
        for value in row.values {
            tally.take(value);
        }
    }
}

// The phases of a workload, and what their rounds draw.
use std::fmt;
use std::str::FromStr;

#[derive(Clone, Copy)]
pub(crate) enum Phase {
    Mixed,
    Whole,
    Back,
    Contend,
    Fill,
    Near,
    Far,
    Old,
}

// A word of the command line that names no phase.
#[derive(Clone, Copy)]
pub(crate) struct NoPhase;

impl FromStr for Phase {
    type Err = NoPhase;

    fn from_str(word: &str) -> Result<Phase, NoPhase> {
        match word {
            "mixed" => Ok(Phase::Mixed),
            "whole" => Ok(Phase::Whole),
            "back" => Ok(Phase::Back),
            "contend" => Ok(Phase::Contend),
            "fill" => Ok(Phase::Fill),
            "near" => Ok(Phase::Near),
            "far" => Ok(Phase::Far),
            "old" => Ok(Phase::Old),
            _ => Err(NoPhase),
        }
    }
}

impl fmt::Display for Phase {
    fn fmt<W: fmt::Write>(&self, f: &mut fmt::Formatter<W>) -> fmt::Result {
        f.write_str(match self {
            Phase::Mixed => "mixed",
            Phase::Whole => "whole",
            Phase::Back => "back",
            Phase::Contend => "contend",
            Phase::Fill => "fill",
            Phase::Near => "near",
            Phase::Far => "far",
            Phase::Old => "old",
        })
    }
}

// How an edit is drawn.
#[derive(Clone, Copy)]
pub(crate) enum Style {
    Whole,
    Back,
    One,
    Some,
}

// The chances of a round: one in `open` and `close`, so many writers, a style or any, the records that are drawn more often,
// and of 16 ends so many abandoned and carried on.
#[derive(Clone, Copy)]
pub(crate) struct Plan {
    pub(crate) open: u64,
    pub(crate) close: u64,
    pub(crate) writers: u64,
    pub(crate) style: Option<Style>,
    pub(crate) hot: u64,
    pub(crate) abandon: u64,
    pub(crate) carry: u64,
}

impl Phase {
    // What a round of the phase draws, at so many records; none where the phase has no rounds of this sort.
    pub(crate) fn plan(self, records: u64) -> Option<Plan> {
        let usual = Plan {
            open: 8,
            close: 10,
            writers: 2,
            style: None,
            hot: hot(records, 16),
            abandon: 1,
            carry: 1,
        };
        match self {
            Phase::Mixed => Some(Plan {
                abandon: 2,
                carry: 2,
                ..usual
            }),
            Phase::Whole => Some(Plan {
                style: Some(Style::Whole),
                ..usual
            }),
            Phase::Back => Some(Plan {
                style: Some(Style::Back),
                hot: hot(records, 64),
                ..usual
            }),
            Phase::Contend => Some(Plan {
                writers: 4,
                hot: hot(records, 512),
                abandon: 6,
                carry: 4,
                ..usual
            }),
            Phase::Fill => Some(Plan {
                open: records / 32 + 1,
                close: records / 24 + 1,
                hot: records,
                ..usual
            }),
            Phase::Near | Phase::Far | Phase::Old => None,
        }
    }
}

// The number of records that are drawn more often.
fn hot(records: u64, divisor: u64) -> u64 {
    records
        .checked_div(divisor)
        .map_or(records, |n| n.saturating_add(1).min(records))
}

// What is printed of a call's outcome, and of the numbers in it.
ghost use Rattle.std.specs.Prelude.{Some};
ghost use Rattle.transcript.specs.Texts.{spaced, outcome_line, end_text};

use history::call::Outcome;
use script::fault::ScriptFault;
use script::kinds::ScriptKind;
use std::fmt;

// Times, each behind a space.
#[derive(Drop)]
struct Times<'a>(&'a [u32]);

impl fmt::Display for Times<'_> {
    ghost output = { λ t. Some (spaced t.0.now) };

    fn fmt<W: fmt::Write>(&self, f: &mut fmt::Formatter<W>) -> fmt::Result {
        for n in self.0 {
            write!(f, " {n}")?;
        }
        Ok(())
    }
}

// The numbers that a row tells, each behind a space.
#[derive(Drop)]
struct Numbers<K: ScriptKind>(K::Row);

impl<K: ScriptKind> fmt::Display for Numbers<K> {
    ghost output = { λ r. Some (spaced (K.ops.tells r.0)) };

    fn fmt<W: fmt::Write>(&self, f: &mut fmt::Formatter<W>) -> fmt::Result {
        // By index: a row is a type parameter, and such a row cannot be lent as a slice of numbers.
        for i in 0..K::NUMBERS {
            let n = K::number(self.0, i);
            write!(f, " {n}")?;
        }
        Ok(())
    }
}

// What came of a call at a line, with the times that the call wrote.
#[derive(Drop)]
pub struct Told<'a, K: ScriptKind> {
    pub outcome: Outcome<K::Row>,
    pub times: &'a [u32],
    pub line: usize,
}

impl<K: ScriptKind> fmt::Display for Told<'_, K> {
    ghost output = { λ t. Some (outcome_line K.ops.tells t.line t.times.now t.outcome) };

    fn fmt<W: fmt::Write>(&self, f: &mut fmt::Formatter<W>) -> fmt::Result {
        match self.outcome {
            Outcome::Opened(time) => writeln!(f, "report {time}"),
            Outcome::Shown(row) => writeln!(f, "row{}", Numbers::<K>(row)),
            Outcome::Closed => writeln!(f, "closed"),
            Outcome::Began(number) => writeln!(f, "writer {number}"),
            Outcome::Changed => writeln!(f, "changed"),
            Outcome::Committed(clock, count) => writeln!(f, "committed {clock} {count}"),
            Outcome::Abandoned(count) => writeln!(f, "abandoned {count}"),
            Outcome::Kept(count) => writeln!(f, "kept {count}{}", Times(self.times)),
            Outcome::Refused(fault) => writeln!(f, "{}", ScriptFault::from_store(fault, self.line)),
            // A script makes no call with such an outcome.
            Outcome::Held(_) | Outcome::InUse(_) => Ok(()),
        }
    }
}

// The last line: the versions in use, and the open leases.
#[derive(Clone, Copy)]
pub struct End {
    pub used: usize,
    pub leases: u32,
}

impl fmt::Display for End {
    ghost output = { λ e. Some (end_text e.used e.leases) };

    fn fmt<W: fmt::Write>(&self, f: &mut fmt::Formatter<W>) -> fmt::Result {
        let used = self.used;
        let leases = self.leases;
        writeln!(f, "end {used} {leases}")
    }
}

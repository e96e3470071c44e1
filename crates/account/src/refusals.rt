// What a store's refusals look like on a page.
use history::fault::StoreFault;
use std::{fmt, io};

// A store's refusal in words: its number, layer and place.
#[derive(Clone, Copy)]
pub(crate) struct Refused(pub(crate) StoreFault);

impl fmt::Display for Refused {
    fn fmt<W: fmt::Write>(&self, f: &mut fmt::Formatter<W>) -> fmt::Result {
        let fault = self.0;
        write!(
            f,
            "refused, number {}, layer {}, place {}",
            fault.number(),
            fault.layer(),
            fault.place
        )
    }
}

// What was asked for, and why a store refused it.
#[derive(Clone, Copy)]
pub(crate) struct Refusal<'a> {
    what: &'a str,
    why: Refused,
}

impl<'a> Refusal<'a> {
    pub(crate) fn of(what: &'a str, fault: StoreFault) -> Refusal<'a> {
        Refusal {
            what,
            why: Refused(fault),
        }
    }
}

impl fmt::Display for Refusal<'_> {
    fn fmt<W: fmt::Write>(&self, f: &mut fmt::Formatter<W>) -> fmt::Result {
        write!(f, "{}: {}", self.what, self.why)
    }
}

// A line that says what was asked for, and why a store refused it.
pub fn show_refusal(rt: &impl Print, what: &str, fault: StoreFault) -> io::Result<()> {
    println!(rt; "  {}", Refusal::of(what, fault))
}

// When a change was finished, and how many records it has; or why it was refused.
pub fn show_finished(
    rt: &impl Print,
    what: &str,
    done: Result<(u32, usize), StoreFault>,
) -> io::Result<()> {
    match done {
        Ok((clock, n)) => println!(rt; "  finished at {clock}, records: {n}"),
        Err(fault) => show_refusal(rt, what, fault),
    }
}

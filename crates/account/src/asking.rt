ghost use Rattle.std.specs.Prelude.{◌≡◌, ◌+◌, length};
ghost use Rattle.account.specs.Leases.{stands};

use lease::counting::open_at;
use lease::registry::Registry;
use std::fmt;

// The numbers of open leases at a time and in all, and the least open time.
#[derive(Clone, Copy)]
pub struct Standing {
    pub there: u32,
    pub in_all: u32,
    pub least: Option<u32>,
}

impl fmt::Display for Standing {
    fn fmt<W: fmt::Write>(&self, f: &mut fmt::Formatter<W>) -> fmt::Result {
        write!(f, "{} there, {} in all, ", self.there, self.in_all)?;
        match self.least {
            Some(least) => write!(f, "least open time {least}"),
            None => write!(f, "no time open"),
        }
    }
}

// Asks a registry the three questions.
pub fn ask<R: Registry>(registry: &R, time: u32) -> Standing
    ensures { result ≡ stands (R.leases registry.now) time }
{
    Standing {
        there: registry.count_at(time),
        in_all: registry.total(),
        least: registry.least_from(0),
    }
}

// Opens leases at a time until no more is accepted, and answers how many were opened.
pub fn fill<R: Registry>(registry: &mut R, time: u32) -> u32
    ensures { length (R.leases registry.new) ≡ length (R.leases registry.old) + result }
{
    // A loop: what a closure answered that changes the registry is not known to a proof behind a `filter`.
    let mut n = 0;
    for _i in 0..R::limit() {
        if open_at(registry, time).is_ok() {
            n += 1;
        }
    }
    n
}

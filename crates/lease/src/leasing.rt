// Leases given out as tokens, in any registry: a report's, and a writer's, which is open at its number.
ghost use Rattle.lease.specs.Counting.{Ended, Taken, GivenUp, Abandoned};
ghost use Rattle.lease.specs.Tokens.{At};

use crate::counting::{end_at, open_at};
use crate::fault::RegistryFault;
use crate::registry::Registry;
use crate::token::{Lease, Token, Writer};

impl<Use> Token<Use> {
    // Opens a lease at a time, and gives it out as a token.
    pub fn open<R: Registry>(registry: &mut R, time: u32) -> Result<Token<Use>, RegistryFault>
        ensures { Taken (At time) R.capacity R.leases time registry.old result registry.new }
    {
        open_at(registry, time)?;
        Ok(Token::take_up(time))
    }
}

impl Lease {
    // Closes a report's lease, which is used up, also when that is refused.
    pub fn close<R: Registry>(self, registry: &mut R) -> Result<(), RegistryFault>
        ensures { Ended R.leases self.time registry.old result registry.new }
    {
        end_at(registry, self.write_down())
    }
}

impl Writer {
    // Ends a writer's lease; refused, the writer is given back.
    pub fn end<R: Registry>(self, registry: &mut R) -> Result<(), (RegistryFault, Writer)>
        ensures { GivenUp R.leases self registry.old result registry.new }
    {
        match end_at(registry, self.number()) {
            Ok(()) => {
                self.write_down();
                Ok(())
            }
            Err(fault) => Err((fault, self)),
        }
    }

    // Ends a writer's lease if one is open, and tells whether; the writer is used up in any case.
    pub fn abandon<R: Registry>(self, registry: &mut R) -> bool
        ensures { Abandoned R.leases self.time registry.old result registry.new }
    {
        match self.end(registry) {
            Ok(()) => true,
            Err((_, back)) => {
                back.write_down();
                false
            }
        }
    }
}

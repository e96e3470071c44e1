ghost use Rattle.std.specs.Prelude.{◌≡◌};
ghost use Rattle.history.specs.Card.{fault_number, fault_layer, raised};

use lease::fault::{Layer, RegistryFault};

// Why a store refuses. What a registry refuses comes up whole.
#[derive(Clone, Copy, PartialEq, Eq, Debug)]
pub enum StoreCause {
    TableSize,
    StartHigh,
    NoRecord,
    HeldByOther,
    RowNewer,
    VersionsUsed,
    ClockLimit,
    ListShort,
    FromRegistry(RegistryFault),
}

// A store's refusal, with its place: a size, a start, a record, a clock, a length, or the registry's place. The place stands
// first, so that an outcome, which may hold a fault, is copied in whole words: otherwise a call's answer waited for its copy.
#[derive(Clone, Copy, PartialEq, Eq, Debug)]
pub struct StoreFault {
    pub place: u64,
    pub cause: StoreCause,
}

impl StoreCause {
    // The refusal for this cause at a place.
    pub fn at(self, place: u64) -> StoreFault
        ensures { result ≡ record { cause = self; place = place } }
    {
        StoreFault { cause: self, place }
    }
}

impl From<RegistryFault> for StoreFault {
    ghost from_gives = { λ e r. r ≡ raised e };

    fn from(f: RegistryFault) -> StoreFault {
        StoreCause::FromRegistry(f).at(u64::from(f.place))
    }
}

impl StoreFault {
    // The number of the refusal.
    pub fn number(&self) -> u8
        ensures { result ≡ fault_number self.now.cause }
    {
        match self.cause {
            StoreCause::TableSize => 1,
            StoreCause::StartHigh => 2,
            StoreCause::NoRecord => 3,
            StoreCause::HeldByOther => 5,
            StoreCause::RowNewer => 6,
            StoreCause::VersionsUsed => 7,
            StoreCause::ClockLimit => 9,
            StoreCause::ListShort => 10,
            StoreCause::FromRegistry(f) => f.number(),
        }
    }

    // The layer that refused.
    pub fn layer(&self) -> Layer
        ensures { result ≡ fault_layer self.now.cause }
    {
        match self.cause {
            StoreCause::FromRegistry(f) => f.layer(),
            _ => Layer::Store,
        }
    }
}

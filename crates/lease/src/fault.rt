ghost use Rattle.std.specs.Prelude.{◌≡◌};
ghost use Rattle.lease.specs.Card.{cause_number, cause_layer, none_open, full};

// The layer that refused: a registry, a store or a script.
#[derive(Clone, Copy, PartialEq, Eq, Debug)]
pub enum Layer {
    Registry,
    Store,
    Script,
}

// Why a registry refused: no lease is open at the time, or the capacity is reached.
#[derive(Clone, Copy, PartialEq, Eq, Debug)]
pub enum RegistryCause {
    NoneOpen,
    Full,
}

// A registry's refusal, with its place: the time, or the capacity.
#[derive(Clone, Copy, PartialEq, Eq, Debug)]
pub struct RegistryFault {
    pub cause: RegistryCause,
    pub place: u32,
}

impl RegistryFault {
    // The refusal of a lease more than the capacity.
    pub fn at_capacity(capacity: u32) -> RegistryFault
        ensures { result ≡ full capacity }
    {
        RegistryFault {
            cause: RegistryCause::Full,
            place: capacity,
        }
    }

    // The refusal of a time at which no lease is open.
    pub fn not_open(time: u32) -> RegistryFault
        ensures { result ≡ none_open time }
    {
        RegistryFault {
            cause: RegistryCause::NoneOpen,
            place: time,
        }
    }

    // The number of the refusal, by which every layer above tells it.
    pub fn number(&self) -> u8
        ensures { result ≡ cause_number self.now.cause }
    {
        match self.cause {
            RegistryCause::NoneOpen => 4,
            RegistryCause::Full => 8,
        }
    }

    // The layer that refused.
    pub fn layer(&self) -> Layer
        ensures { result ≡ cause_layer self.now.cause }
    {
        match self.cause {
            RegistryCause::NoneOpen | RegistryCause::Full => Layer::Registry,
        }
    }
}

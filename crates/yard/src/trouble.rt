use std::alloc::AllocError;
use std::io;

// What keeps the program from printing: a failed read or write, or want of memory. A script's refusals are no trouble.
#[derive(Debug, Drop)]
pub enum Trouble {
    Io(io::Error),
    NoMemory,
}

// By hand: a derived conversion would keep the `AllocError`, and want of memory would print as another text; one derived and one by hand
// would be no plainer.
impl From<io::Error> for Trouble {
    fn from(error: io::Error) -> Trouble {
        Trouble::Io(error)
    }
}

impl From<AllocError> for Trouble {
    fn from(_e: AllocError) -> Trouble {
        Trouble::NoMemory
    }
}

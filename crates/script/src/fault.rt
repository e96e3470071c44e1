ghost use Rattle.std.specs.Prelude.{◌≡◌};
ghost use Rattle.script.specs.Card.{script_number, script_layer, unknown_letter_fault, bad_word_fault, too_long, fault_from_store, refusal_of};

use history::fault::StoreFault;
use lease::fault::Layer;

// Why a script's line is refused. What the store refuses comes up whole.
#[derive(Clone, Copy)]
pub enum ScriptCause {
    UnknownLetter,
    BadWord,
    TooLong,
    FromStore(StoreFault),
}

// A word that is missing, empty, extra, malformed or out of range, by its place in its line.
#[derive(Clone, Copy)]
pub struct BadWord {
    pub place: usize,
}

// A script's refusal, with its place and its line.
#[derive(Clone, Copy)]
pub struct ScriptFault {
    pub cause: ScriptCause,
    pub place: u64,
    pub line: usize,
}

// A refusal by its number, layer and place, whoever gave it, and the line of the script.
#[derive(Clone, Copy)]
pub struct Refusal {
    pub number: u8,
    pub layer: Layer,
    pub place: u64,
    pub line: usize,
}

impl ScriptFault {
    // The first word of a line is no known letter.
    pub fn unknown_letter(line: usize) -> ScriptFault
        ensures { result ≡ unknown_letter_fault line }
    {
        ScriptFault {
            cause: ScriptCause::UnknownLetter,
            place: 0,
            line,
        }
    }

    // A bad word of a line.
    pub fn bad_word(word: BadWord, line: usize) -> ScriptFault
        ensures { result ≡ bad_word_fault line word }
    {
        ScriptFault {
            cause: ScriptCause::BadWord,
            place: word.place as u64,
            line,
        }
    }

    // A script of more than 65,536 bytes.
    pub fn too_long() -> ScriptFault
        ensures { result ≡ too_long }
    {
        ScriptFault {
            cause: ScriptCause::TooLong,
            place: 65536,
            line: 0,
        }
    }

    // A store's refusal at a line.
    pub fn from_store(fault: StoreFault, line: usize) -> ScriptFault
        ensures { result ≡ fault_from_store line fault }
    {
        ScriptFault {
            cause: ScriptCause::FromStore(fault),
            place: fault.place,
            line,
        }
    }

    // What is printed of it.
    pub fn refusal(&self) -> Refusal
        ensures { result ≡ refusal_of self.now }
    {
        Refusal {
            number: self.number(),
            layer: self.layer(),
            place: self.place,
            line: self.line,
        }
    }

    // The number of the refusal.
    pub fn number(&self) -> u8
        ensures { result ≡ script_number self.now.cause }
    {
        match self.cause {
            ScriptCause::UnknownLetter => 11,
            ScriptCause::BadWord | ScriptCause::TooLong => 12,
            ScriptCause::FromStore(f) => f.number(),
        }
    }

    // The layer that refused.
    pub fn layer(&self) -> Layer
        ensures { result ≡ script_layer self.now.cause }
    {
        match self.cause {
            ScriptCause::FromStore(f) => f.layer(),
            _ => Layer::Script,
        }
    }
}

ghost use Rattle.std.specs.Prelude.{◌≡◌};
ghost use Rattle.script.specs.Commands.{letter_of_word};
ghost use Rattle.script.specs.Openings.{kind_of, registry_of, sizes_of, opening};
ghost use Rattle.script.specs.Spans.{part};

use crate::command::letter_of;
use crate::fault::{BadWord, ScriptFault};
use crate::words::{Word, Words, judge};

// The most records and versions of a script's store.
const RECORDS: u64 = 64;

const VERSIONS: u64 = 256;

// The kind of a script: fields or tallies.
#[derive(Clone, Copy)]
pub enum KindLetter {
    F,
    T,
}

// The registry of a script: sorted list or slots.
#[derive(Clone, Copy)]
pub enum RegistryLetter {
    S,
    L,
}

// What the first line asks for.
#[derive(Clone, Copy)]
pub struct Opening {
    pub kind: KindLetter,
    pub registry: RegistryLetter,
    pub records: u64,
    pub versions: u64,
    pub start: u64,
}

// A kind and a registry have a table of two letters each: a conversion of each would need an error type, and be no plainer.
fn kind_letter(text: &[u8]) -> Option<KindLetter>
    ensures { result ≡ kind_of (letter_of_word text.now) }
{
    match letter_of(text)? {
        b'F' => Some(KindLetter::F),
        b'T' => Some(KindLetter::T),
        _ => None,
    }
}

fn registry_letter(text: &[u8]) -> Option<RegistryLetter>
    ensures { result ≡ registry_of (letter_of_word text.now) }
{
    match letter_of(text)? {
        b'S' => Some(RegistryLetter::S),
        b'L' => Some(RegistryLetter::L),
        _ => None,
    }
}

// The four words behind the kind, judged from left to right; else the first bad one.
fn judge_sizes(
    kind: KindLetter,
    registry: Word,
    records: Word,
    versions: Word,
    start: Word,
) -> Result<Opening, BadWord>
    ensures { result ≡ sizes_of kind (part registry.entry) (part records.entry) (part versions.entry) (part start.entry) }
{
    Ok(Opening {
        kind,
        registry: registry_letter(registry.text).ok_or(registry.bad())?,
        records: judge(records, RECORDS)?,
        versions: judge(versions, VERSIONS)?,
        start: judge(start, u64::MAX)?,
    })
}

// Reads the first line, or refuses it.
pub fn read_opening(line: &[u8]) -> Result<Opening, ScriptFault>
    ensures { result ≡ opening line.now }
{
    let mut words = Words::new(line);
    let first = words.next_word();
    let Some(kind) = kind_letter(first.text) else {
        return Err(ScriptFault::unknown_letter(1));
    };
    let registry = words.next_word();
    let records = words.next_word();
    let versions = words.next_word();
    let start = words.next_word();
    words.end(judge_sizes(kind, registry, records, versions, start), 1)
}

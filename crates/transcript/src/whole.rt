ghost use Rattle.std.specs.Prelude.{◌≡◌, ◌+◌, List, [], ◌++◌, IfOk, string_bytes, OnOk};
ghost use Rattle.script.specs.Openings.{opening};
ghost use Rattle.transcript.specs.Printing.{left};
ghost use Rattle.transcript.specs.Texts.{fault_line};
ghost use Rattle.transcript.specs.Transcripts.{Transcript, Begun, print_by};

use crate::lines::run_lines;
use fields::Fields;
use script::fault::ScriptFault;
use script::opening::{KindLetter, Opening, RegistryLetter, read_opening};
use script::reader::Reader;
use slot_table::SlotTable;
use sorted_list::SortedList;
use std::alloc::{AllocError, Global};
use store::sizes::Sizes;
use tallies::Tallies;

// The most bytes of a script.
const LONGEST: usize = 65536;

// Runs the lines behind the first, over the kind and the registry that it asked for: the letters pick types, so each pair has its arm.
fn run_opened(
    heap: Global,
    opening: Opening,
    sizes: Sizes,
    reader: &mut Reader,
    out: &mut String,
) -> Result<(), AllocError>
    ensures { OnOk result (string_bytes out.new ≡ string_bytes out.old ++ print_by opening.kind opening.registry (reader.old.line + 1) sizes.records sizes.versions sizes.start (left reader.old)) }
{
    match (opening.kind, opening.registry) {
        (KindLetter::F, RegistryLetter::S) => run_lines::<Fields, SortedList>(
            heap, sizes, reader, out,
        ),
        (KindLetter::F, RegistryLetter::L) => run_lines::<Fields, SlotTable>(
            heap, sizes, reader, out,
        ),
        (KindLetter::T, RegistryLetter::S) => run_lines::<Tallies, SortedList>(
            heap, sizes, reader, out,
        ),
        (KindLetter::T, RegistryLetter::L) => run_lines::<Tallies, SlotTable>(
            heap, sizes, reader, out,
        ),
    }
}

// All that is printed of a script that is refused before its second line.
fn refusal(heap: Global, fault: ScriptFault) -> Result<String, AllocError>
    ensures { IfOk result (λ text. string_bytes text ≡ fault_line fault) }
{
    format!(in heap; "{fault}\n")
}

// Reads the first line and runs the others, or prints why the run ends there.
fn begin(heap: Global, first: &[u8], reader: &mut Reader) -> Result<String, AllocError>
    requires { reader.old.line ≡ 1 }
    ensures { IfOk result (λ text. Begun (opening first.now) (left reader.old) (string_bytes text)) }
{
    let opening = match read_opening(first) {
        Ok(opening) => opening,
        Err(fault) => return refusal(heap, fault),
    };
    let sizes = match Sizes::check(opening.records, opening.versions, opening.start) {
        Ok(sizes) => sizes,
        Err(fault) => return refusal(heap, ScriptFault::from_store(fault, 1)),
    };
    let mut out = String::new(heap);
    run_opened(heap, opening, sizes, reader, &mut out)?;
    Ok(out)
}

// What a script prints: the text of each line, for any bytes. Want of memory is the one error.
pub fn transcript(heap: Global, script: &[u8]) -> Result<String, AllocError>
    ensures { IfOk result (λ text. Transcript script.now (string_bytes text)) }
{
    if script.len() > LONGEST {
        return refusal(heap, ScriptFault::too_long());
    }
    let mut reader = Reader::new(script);
    match reader.next_line() {
        Some(first) => begin(heap, first, &mut reader),
        None => Ok(String::new(heap)),
    }
}

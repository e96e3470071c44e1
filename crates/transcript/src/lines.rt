ghost use Rattle.std.specs.Prelude.{◌≡◌, ◌+◌, List, [], ◌++◌, string_bytes, OnOk};
ghost use Rattle.history.specs.Model.{new_model};
ghost use Rattle.store.specs.View.{view};
ghost use Rattle.transcript.specs.Printing.{print_line, print_lines, Behind, left};

use crate::text::{End, Told};
use lease::registry::Registry;
use run::perform::perform;
use run::turn::wrote;
use script::command::read_call;
use script::kinds::ScriptKind;
use script::reader::Reader;
use std::alloc::{AllocError, Global};
use std::fmt::Write;
use store::sizes::Sizes;
use store::store::Store;

// The most versions of a script's store, and so the most times that a Kept writes.
const ROOM: usize = 256;

// Makes the call of one line and prints what came of it, or prints the line's refusal.
fn run_line<K: ScriptKind, R: Registry>(
    store: &mut Store<K>,
    registry: &mut R,
    line: &[u8],
    number: usize,
    out: &mut String,
) -> Result<(), AllocError>
    ensures { OnOk result (Behind (print_line K.ops K.terms R.capacity number (view store.old) (R.leases registry.old) line.now) (string_bytes out.old) (string_bytes out.new) (view store.new) (R.leases registry.new)) }
{
    match read_call::<K>(line, number) {
        Err(fault) => writeln!(out, "{fault}"),
        Ok(call) => {
            // The store writes times at the front of a list that it is given.
            let mut list = [0; ROOM];
            let outcome = perform::<K, R>(store, registry, call, &mut list);
            let told = Told::<K> {
                outcome,
                times: &list[..wrote(outcome)],
                line: number,
            };
            write!(out, "{told}")
        }
    }
}

// Runs all lines that a reader has left on a new store, and prints the end.
pub fn run_lines<K: ScriptKind, R: Registry + Drop>(
    heap: Global,
    sizes: Sizes,
    reader: &mut Reader,
    out: &mut String,
) -> Result<(), AllocError>
    ensures { OnOk result (string_bytes out.new ≡ string_bytes out.old ++ print_lines K.ops K.terms R.capacity (reader.old.line + 1) (new_model K.ops sizes.records sizes.versions sizes.start) [] (left reader.old)) }
{
    let mut store = Store::<K>::make(heap, sizes)?;
    let mut registry = R::empty();
    while let Some(line) = reader.next_line() {
        let number = reader.line();
        run_line::<K, R>(&mut store, &mut registry, line, number, out)?;
    }
    let end = End {
        used: store.in_use(),
        leases: registry.total(),
    };
    write!(out, "{end}")
}

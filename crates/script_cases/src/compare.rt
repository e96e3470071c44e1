// Compares what scripts print with what they must.
use std::alloc::{AllocError, Global};
use std::fmt::Write;
use std::process::Abort;
use std::test::Fail;
use transcript::whole::transcript;

// A whole script. The heap comes beside `rt`: what may stop a test has no allocator.
pub(crate) fn prints(
    rt: &impl Abort,
    heap: Global,
    script: &[u8],
    wanted: &str,
) -> Result<(), Fail> {
    match transcript(heap, script) {
        Ok(text) => {
            assert_eq!(rt; text.as_str(), wanted);
            Ok(())
        },
        Err(_) => Err(Fail::new("no memory")),
    }
}

// One line of a table: a line of the script, a mark, and what it prints. With no mark it prints nothing; a line that
// begins with the mark is printed and stands for no line of the script.
fn put_row(script: &mut String, wanted: &mut String, row: &str) -> Result<(), AllocError> {
    if let Some(printed) = row.strip_prefix("> ") {
        return writeln!(wanted, "{printed}");
    }
    match row.split_once(" > ") {
        Some((line, printed)) => {
            writeln!(script, "{line}")?;
            writeln!(wanted, "{printed}")
        }
        None => writeln!(script, "{row}"),
    }
}

// A script and its transcript, side by side.
pub(crate) fn table(rt: &impl Abort, heap: Global, rows: &str) -> Result<(), Fail> {
    let mut script = String::new(heap);
    let mut wanted = String::new(heap);
    for row in rows.lines() {
        put_row(&mut script, &mut wanted, row)?;
    }
    prints(rt, heap, script.as_bytes(), wanted.as_str())
}

// First lines that are refused, each with its refusal; the line behind it is not run.
pub(crate) fn refused_first(rt: &impl Abort, heap: Global, rows: &str) -> Result<(), Fail> {
    for row in rows.lines() {
        let mut script = String::new(heap);
        let mut wanted = String::new(heap);
        put_row(&mut script, &mut wanted, row)?;
        writeln!(script, "b")?;
        prints(rt, heap, script.as_bytes(), wanted.as_str())?;
    }
    Ok(())
}

// A registry of a capacity: so many leases open at time 0, then neither another nor a writer's.
pub(crate) fn full(
    rt: &impl Abort,
    heap: Global,
    first: &str,
    capacity: u32,
    refused: &str,
) -> Result<(), Fail> {
    let mut script = String::new(heap);
    let mut wanted = String::new(heap);
    writeln!(script, "{first}")?;
    for _ in 0..capacity {
        put_row(&mut script, &mut wanted, "o > report 0")?;
    }
    script.push_str("o\nb\n")?;
    wanted.push_str(refused)?;
    prints(rt, heap, script.as_bytes(), wanted.as_str())
}

use std::io;
use std::io::Read;

// One byte more than a script may have.
const ENOUGH: u64 = 65537;

// Standard input up to its end, but no more of it than tells that a script is too long.
pub(crate) fn read_script(rt: &HostRuntime) -> io::Result<Vec<u8>> {
    let mut script = Vec::new(rt.alloc());
    rt.stdin().take(ENOUGH).read_to_end(&mut script)?;
    Ok(script)
}

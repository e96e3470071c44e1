// The longest script, and one byte more.
use crate::compare::prints;
use std::alloc::Global;
use std::test::Fail;

// A script of `len` bytes: a first line, and then one line of letters.
fn long_script(heap: Global, len: usize) -> Result<Vec<u8>, Fail> {
    let mut script = b"F S 1 1 0\n".to_vec(heap)?;
    for _ in script.len()..len {
        script.push(b'o')?;
    }
    Ok(script)
}

#[test]
fn the_longest_script(rt: HostRuntime) -> Result<(), Fail> {
    let script = long_script(rt.alloc(), 65536)?;
    assert_eq!(rt; script.len(), 65536);
    prints(
        &rt,
        rt.alloc(),
        script.as_slice(),
        "refused 11 S 0 at 2\nend 0 0\n",
    )
}

#[test]
fn one_byte_too_many(rt: HostRuntime) -> Result<(), Fail> {
    let script = long_script(rt.alloc(), 65537)?;
    assert_eq!(rt; script.len(), 65537);
    prints(
        &rt,
        rt.alloc(),
        script.as_slice(),
        "refused 12 S 65536 at 0\n",
    )
}

// Lines and bytes: where a line begins and ends, and what counts as a byte of a word.
use crate::compare::{prints, table};
use std::test::Fail;

#[test]
fn an_empty_script_is_one_empty_line(rt: HostRuntime) -> Result<(), Fail> {
    prints(&rt, rt.alloc(), b"", "refused 11 S 0 at 1\n")?;
    prints(&rt, rt.alloc(), b"\n", "refused 11 S 0 at 1\n")?;
    prints(&rt, rt.alloc(), b"\n\n", "refused 11 S 0 at 1\n")?;
    prints(&rt, rt.alloc(), b"\nF S 1 1 0\n", "refused 11 S 0 at 1\n")
}

#[test]
fn a_last_line_feed_begins_no_line(rt: HostRuntime) -> Result<(), Fail> {
    prints(&rt, rt.alloc(), b"F S 1 1 0", "end 0 0\n")?;
    prints(&rt, rt.alloc(), b"F S 1 1 0\n", "end 0 0\n")?;
    prints(
        &rt,
        rt.alloc(),
        b"F S 1 1 0\n\n",
        "refused 11 S 0 at 2\nend 0 0\n",
    )?;
    prints(&rt, rt.alloc(), b"F S 1 1 0\no", "report 0\nend 0 1\n")?;
    prints(&rt, rt.alloc(), b"F S 1 1 0\no\n", "report 0\nend 0 1\n")?;
    prints(
        &rt,
        rt.alloc(),
        b"F S 1 1 0\no\n\n",
        "report 0\nrefused 11 S 0 at 3\nend 0 1\n",
    )?;
    prints(
        &rt,
        rt.alloc(),
        b"F S 1 1 0\n\no\n",
        "refused 11 S 0 at 2\nreport 0\nend 0 1\n",
    )?;
    prints(
        &rt,
        rt.alloc(),
        b"F S 1 1 0\n\n\n\n",
        "refused 11 S 0 at 2\nrefused 11 S 0 at 3\nrefused 11 S 0 at 4\nend 0 0\n",
    )
}

// Carriage return, tab and NUL.
#[test]
fn other_control_bytes_belong_to_words(rt: HostRuntime) -> Result<(), Fail> {
    prints(&rt, rt.alloc(), b"F S 1 1 0\r\n", "refused 12 S 8 at 1\n")?;
    prints(&rt, rt.alloc(), b"F\tS 1 1 0\n", "refused 11 S 0 at 1\n")?;
    table(
        &rt,
        rt.alloc(),
        "\
F S 1 1 0
o\r > refused 11 S 0 at 2
\r > refused 11 S 0 at 3
b\t > refused 11 S 0 at 4
o\t1 > refused 11 S 0 at 5
\0 > refused 11 S 0 at 6
o\0 > refused 11 S 0 at 7
\to > refused 11 S 0 at 8
c\r 0 > refused 11 S 0 at 9
> end 0 0
",
    )?;
    table(
        &rt,
        rt.alloc(),
        "\
F S 1 1 0
c 0\r > refused 12 S 2 at 2
c \t0 > refused 12 S 2 at 3
c 0\t > refused 12 S 2 at 4
c \0 > refused 12 S 2 at 5
v 0\0 > refused 12 S 2 at 6
o \r > refused 12 S 2 at 7
r 0\t0 > refused 12 S 2 at 8
m 1\r > refused 12 S 2 at 9
> end 0 0
",
    )
}

#[test]
fn bytes_above_127_belong_to_words(rt: HostRuntime) -> Result<(), Fail> {
    prints(&rt, rt.alloc(), b"\xff\n", "refused 11 S 0 at 1\n")?;
    prints(&rt, rt.alloc(), b"F \xc5 1 1 0\n", "refused 12 S 2 at 1\n")?;
    prints(&rt, rt.alloc(), b"F S 1 1 \xb2\n", "refused 12 S 8 at 1\n")?;
    prints(
        &rt,
        rt.alloc(),
        b"F S 1 1 0\n\xef\xbb\xbfo\n\x80\nc \xff\nc 1\x80\no \xa0\n",
        "refused 11 S 0 at 2\nrefused 11 S 0 at 3\nrefused 12 S 2 at 4\nrefused 12 S 2 at 5\nrefused 12 S 2 at 6\nend 0 0\n",
    )
}

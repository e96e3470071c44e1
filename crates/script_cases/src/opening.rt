// The first line: kind, registry, records, versions and start.
use crate::compare::{refused_first, table};
use std::test::Fail;

#[test]
fn no_known_kind(rt: HostRuntime) -> Result<(), Fail> {
    refused_first(
        &rt,
        rt.alloc(),
        "\
f S 1 1 0 > refused 11 S 0 at 1
 > refused 11 S 0 at 1
  > refused 11 S 0 at 1
 F S 1 1 0 > refused 11 S 0 at 1
FS 1 1 0 > refused 11 S 0 at 1
S F 1 1 0 > refused 11 S 0 at 1
o > refused 11 S 0 at 1
A S 1 1 0 > refused 11 S 0 at 1
1 S 1 1 0 > refused 11 S 0 at 1
FT S 1 1 0 > refused 11 S 0 at 1
",
    )
}

// The place is the line's length.
#[test]
fn a_word_is_missing(rt: HostRuntime) -> Result<(), Fail> {
    refused_first(
        &rt,
        rt.alloc(),
        "\
F > refused 12 S 1 at 1
T > refused 12 S 1 at 1
F S > refused 12 S 3 at 1
F L 1 > refused 12 S 5 at 1
T S 64 256 > refused 12 S 10 at 1
F S 1 1 > refused 12 S 7 at 1
",
    )
}

#[test]
fn a_word_is_empty(rt: HostRuntime) -> Result<(), Fail> {
    refused_first(
        &rt,
        rt.alloc(),
        "\
F  > refused 12 S 2 at 1
F  S 1 1 0 > refused 12 S 2 at 1
F S  > refused 12 S 4 at 1
F S  1 1 0 > refused 12 S 4 at 1
F S 1  > refused 12 S 6 at 1
F S 1  1 0 > refused 12 S 6 at 1
F S 1 1  > refused 12 S 8 at 1
F S 1 1  0 > refused 12 S 8 at 1
",
    )
}

// The last word, empty or not, stands behind the start.
#[test]
fn a_word_is_extra(rt: HostRuntime) -> Result<(), Fail> {
    refused_first(
        &rt,
        rt.alloc(),
        "\
F S 1 1 0  > refused 12 S 10 at 1
F S 1 1 0 0 > refused 12 S 10 at 1
T L 1 1 0 x y > refused 12 S 10 at 1
F S 1 1 0   > refused 12 S 10 at 1
",
    )
}

#[test]
fn a_word_is_malformed(rt: HostRuntime) -> Result<(), Fail> {
    refused_first(
        &rt,
        rt.alloc(),
        "\
F X 1 1 0 > refused 12 S 2 at 1
F s 1 1 0 > refused 12 S 2 at 1
F SL 1 1 0 > refused 12 S 2 at 1
F F 1 1 0 > refused 12 S 2 at 1
F S x 1 0 > refused 12 S 4 at 1
F S -1 1 0 > refused 12 S 4 at 1
F S 1 +1 0 > refused 12 S 6 at 1
F S 1 1x 0 > refused 12 S 6 at 1
F S 1 1 0. > refused 12 S 8 at 1
F S 1 1 0x0 > refused 12 S 8 at 1
",
    )
}

#[test]
fn a_size_is_out_of_range(rt: HostRuntime) -> Result<(), Fail> {
    refused_first(
        &rt,
        rt.alloc(),
        "\
F S 65 1 0 > refused 12 S 4 at 1
T L 65 256 0 > refused 12 S 4 at 1
F S 4096 1 0 > refused 12 S 4 at 1
F S 1 257 0 > refused 12 S 6 at 1
F S 64 16384 0 > refused 12 S 7 at 1
F S 18446744073709551616 1 0 > refused 12 S 4 at 1
F S 1 18446744073709551616 0 > refused 12 S 6 at 1
F S 1 1 18446744073709551616 > refused 12 S 8 at 1
",
    )
}

#[test]
fn the_first_bad_word_counts(rt: HostRuntime) -> Result<(), Fail> {
    refused_first(
        &rt,
        rt.alloc(),
        "\
F X 65 257 x > refused 12 S 2 at 1
F S 65 257 x > refused 12 S 4 at 1
F S 64 257 x > refused 12 S 7 at 1
F S 64 256 x y > refused 12 S 11 at 1
F S x > refused 12 S 4 at 1
F S 0 257 0 > refused 12 S 6 at 1
F S 0 0 4294967296  > refused 12 S 19 at 1
F S 0 1 > refused 12 S 7 at 1
",
    )
}

// No records, no versions, then the start.
#[test]
fn the_store_refuses_the_sizes(rt: HostRuntime) -> Result<(), Fail> {
    refused_first(
        &rt,
        rt.alloc(),
        "\
F S 0 1 0 > refused 1 B 0 at 1
F S 1 0 0 > refused 1 B 0 at 1
T L 0 0 0 > refused 1 B 0 at 1
T S 0 256 4294967296 > refused 1 B 0 at 1
F L 64 0 4294967296 > refused 1 B 0 at 1
F S 1 1 4294967296 > refused 2 B 4294967296 at 1
T L 64 256 18446744073709551615 > refused 2 B 18446744073709551615 at 1
F S 1 1 00000000004294967296 > refused 2 B 4294967296 at 1
",
    )
}

#[test]
fn the_greatest_sizes(rt: HostRuntime) -> Result<(), Fail> {
    table(
        &rt,
        rt.alloc(),
        "\
F S 64 256 4294967295
o > report 4294967295
r 4294967295 63 > row 0 0 0 0 0 0 0 0
r 4294967295 64 > refused 3 B 64 at 4
> end 0 1
",
    )?;
    table(
        &rt,
        rt.alloc(),
        "\
T L 64 256 4294967295
o > report 4294967295
r 4294967295 63 > row 0 0 0 0
r 4294967295 64 > refused 3 B 64 at 4
> end 0 1
",
    )?;
    table(
        &rt,
        rt.alloc(),
        "\
F S 1 1 00000000000000000007
o > report 7
> end 0 1
",
    )?;
    table(
        &rt,
        rt.alloc(),
        "\
T S 01 001 0
o > report 0
v 0 > kept 0
> end 0 1
",
    )
}

// Refusals 11 and 12 of the lines behind the first, each with its place: for each word of each command
// missing, empty, malformed, out of range, and then one word too many.
use crate::compare::table;
use std::test::Fail;

// Letters of the first line are unknown behind it, and so is a first word of two bytes or none.
#[test]
fn unknown_letters_of_lines(rt: HostRuntime) -> Result<(), Fail> {
    table(
        &rt,
        rt.alloc(),
        "\
F S 1 1 0
 > refused 11 S 0 at 2
  > refused 11 S 0 at 3
 o > refused 11 S 0 at 4
O > refused 11 S 0 at 5
oo > refused 11 S 0 at 6
ob > refused 11 S 0 at 7
h > refused 11 S 0 at 8
F S 1 1 0 > refused 11 S 0 at 9
S > refused 11 S 0 at 10
x 1 2 3 > refused 11 S 0 at 11
0 > refused 11 S 0 at 12
or 0 0 > refused 11 S 0 at 13
- > refused 11 S 0 at 14
  o > refused 11 S 0 at 15
> end 0 0
",
    )
}

#[test]
fn open_and_begin_take_no_word(rt: HostRuntime) -> Result<(), Fail> {
    table(
        &rt,
        rt.alloc(),
        "\
F S 1 1 0
o  > refused 12 S 2 at 2
o 0 > refused 12 S 2 at 3
o   > refused 12 S 2 at 4
b  > refused 12 S 2 at 5
b 1 > refused 12 S 2 at 6
b x y > refused 12 S 2 at 7
> end 0 0
",
    )
}

#[test]
fn words_of_close(rt: HostRuntime) -> Result<(), Fail> {
    table(
        &rt,
        rt.alloc(),
        "\
F S 1 1 0
c > refused 12 S 1 at 2
c  > refused 12 S 2 at 3
c  0 > refused 12 S 2 at 4
c x > refused 12 S 2 at 5
c -0 > refused 12 S 2 at 6
c 0x > refused 12 S 2 at 7
c 4294967296 > refused 12 S 2 at 8
c 18446744073709551616 > refused 12 S 2 at 9
c 000000000000000000000 > refused 12 S 2 at 10
c 0  > refused 12 S 4 at 11
c 0 0 > refused 12 S 4 at 12
c 4294967295 x > refused 12 S 13 at 13
> end 0 0
",
    )
}

#[test]
fn words_of_commit(rt: HostRuntime) -> Result<(), Fail> {
    table(
        &rt,
        rt.alloc(),
        "\
F S 1 1 0
m > refused 12 S 1 at 2
m  > refused 12 S 2 at 3
m  0 > refused 12 S 2 at 4
m x > refused 12 S 2 at 5
m -0 > refused 12 S 2 at 6
m 0x > refused 12 S 2 at 7
m 4294967296 > refused 12 S 2 at 8
m 18446744073709551616 > refused 12 S 2 at 9
m 000000000000000000000 > refused 12 S 2 at 10
m 0  > refused 12 S 4 at 11
m 0 0 > refused 12 S 4 at 12
m 4294967295 x > refused 12 S 13 at 13
> end 0 0
",
    )
}

#[test]
fn words_of_abandon(rt: HostRuntime) -> Result<(), Fail> {
    table(
        &rt,
        rt.alloc(),
        "\
F S 1 1 0
a > refused 12 S 1 at 2
a  > refused 12 S 2 at 3
a  0 > refused 12 S 2 at 4
a x > refused 12 S 2 at 5
a -0 > refused 12 S 2 at 6
a 0x > refused 12 S 2 at 7
a 4294967296 > refused 12 S 2 at 8
a 18446744073709551616 > refused 12 S 2 at 9
a 000000000000000000000 > refused 12 S 2 at 10
a 0  > refused 12 S 4 at 11
a 0 0 > refused 12 S 4 at 12
a 4294967295 x > refused 12 S 13 at 13
> end 0 0
",
    )
}

#[test]
fn words_of_kept(rt: HostRuntime) -> Result<(), Fail> {
    table(
        &rt,
        rt.alloc(),
        "\
F S 1 1 0
v > refused 12 S 1 at 2
v  > refused 12 S 2 at 3
v  0 > refused 12 S 2 at 4
v x > refused 12 S 2 at 5
v 0, > refused 12 S 2 at 6
v 18446744073709551616 > refused 12 S 2 at 7
v 99999999999999999999 > refused 12 S 2 at 8
v 000000000000000000000 > refused 12 S 2 at 9
v 0  > refused 12 S 4 at 10
v 0 0 > refused 12 S 4 at 11
v 18446744073709551615 0 > refused 12 S 23 at 12
> end 0 0
",
    )
}

#[test]
fn words_of_read(rt: HostRuntime) -> Result<(), Fail> {
    table(
        &rt,
        rt.alloc(),
        "\
F S 1 1 0
r > refused 12 S 1 at 2
r  > refused 12 S 2 at 3
r  0 > refused 12 S 2 at 4
r x 0 > refused 12 S 2 at 5
r 4294967296 0 > refused 12 S 2 at 6
r 18446744073709551616 0 > refused 12 S 2 at 7
r 0 > refused 12 S 3 at 8
r 0  > refused 12 S 4 at 9
r 0  0 > refused 12 S 4 at 10
r 0 x > refused 12 S 4 at 11
r 0 18446744073709551616 > refused 12 S 4 at 12
r 0 000000000000000000000 > refused 12 S 4 at 13
r 0 0  > refused 12 S 6 at 14
r 0 0 0 > refused 12 S 6 at 15
r x y z > refused 12 S 2 at 16
> end 0 0
",
    )
}

#[test]
fn words_of_look(rt: HostRuntime) -> Result<(), Fail> {
    table(
        &rt,
        rt.alloc(),
        "\
F S 1 1 0
g > refused 12 S 1 at 2
g  > refused 12 S 2 at 3
g  0 > refused 12 S 2 at 4
g x 0 > refused 12 S 2 at 5
g 4294967296 0 > refused 12 S 2 at 6
g 18446744073709551616 0 > refused 12 S 2 at 7
g 0 > refused 12 S 3 at 8
g 0  > refused 12 S 4 at 9
g 0  0 > refused 12 S 4 at 10
g 0 x > refused 12 S 4 at 11
g 0 18446744073709551616 > refused 12 S 4 at 12
g 0 000000000000000000000 > refused 12 S 4 at 13
g 0 0  > refused 12 S 6 at 14
g 0 0 0 > refused 12 S 6 at 15
g x y z > refused 12 S 2 at 16
> end 0 0
",
    )
}

#[test]
fn words_of_change(rt: HostRuntime) -> Result<(), Fail> {
    table(
        &rt,
        rt.alloc(),
        "\
F S 1 1 0
e > refused 12 S 1 at 2
e  > refused 12 S 2 at 3
e  0 0 0 > refused 12 S 2 at 4
e x 0 0 0 > refused 12 S 2 at 5
e 4294967296 0 0 0 > refused 12 S 2 at 6
e 0 > refused 12 S 3 at 7
e 0  > refused 12 S 4 at 8
e 0  0 0 > refused 12 S 4 at 9
e 0 x 0 0 > refused 12 S 4 at 10
e 0 18446744073709551616 0 0 > refused 12 S 4 at 11
e 0 0 > refused 12 S 5 at 12
e 0 0  > refused 12 S 6 at 13
> end 0 0
",
    )?;
    table(
        &rt,
        rt.alloc(),
        "\
F S 1 1 0
e 0 0  0 > refused 12 S 6 at 2
e 0 0 x 0 > refused 12 S 6 at 3
e 0 0 8 0 > refused 12 S 6 at 4
e 0 0 18446744073709551616 0 > refused 12 S 6 at 5
e 0 0 0 > refused 12 S 7 at 6
e 0 0 0  > refused 12 S 8 at 7
e 0 0 0   > refused 12 S 8 at 8
e 0 0 0 x > refused 12 S 8 at 9
e 0 0 7 4294967296 > refused 12 S 8 at 10
e 0 0 0 18446744073709551616 > refused 12 S 8 at 11
e 0 0 0 0  > refused 12 S 10 at 12
e 0 0 0 0 0 > refused 12 S 10 at 13
e 0 0 8 4294967296 0 > refused 12 S 6 at 14
> end 0 0
",
    )
}

// A counter is 0 to 3, and a value any number below 2^64.
#[test]
fn words_of_change_for_tallies(rt: HostRuntime) -> Result<(), Fail> {
    table(
        &rt,
        rt.alloc(),
        "\
T L 1 1 0
e 0 0 4 0 > refused 12 S 6 at 2
e 0 0 7 0 > refused 12 S 6 at 3
e 0 0 3 18446744073709551616 > refused 12 S 8 at 4
e 0 0 3 > refused 12 S 7 at 5
e 0 0 3  > refused 12 S 8 at 6
e 4294967296 0 3 0 > refused 12 S 2 at 7
e 0 0 3 0 1 > refused 12 S 10 at 8
> end 0 0
",
    )?;
    table(
        &rt,
        rt.alloc(),
        "\
T L 1 1 0
e 1 0 3 18446744073709551615 > refused 4 R 1 at 2
b > writer 1
e 1 0 3 18446744073709551615 > changed
g 1 0 > row 0 0 0 18446744073709551615
> end 1 1
",
    )
}

// Leading zeros up to 20 digits; a record has no range of its own.
#[test]
fn numbers(rt: HostRuntime) -> Result<(), Fail> {
    table(
        &rt,
        rt.alloc(),
        "\
F S 1 1 0
o > report 0
r 00000000000000000000 00000000000000000000 > row 0 0 0 0 0 0 0 0
r 0 18446744073709551615 > refused 3 B 18446744073709551615 at 4
r 4294967295 0 > refused 4 R 4294967295 at 5
v 00000000000000000001 > refused 3 B 1 at 6
c 00000000000000000000 > closed
> end 0 0
",
    )
}

// A bad word comes before every refusal of the store; a refused line alters nothing.
#[test]
fn the_line_is_judged_before_the_call(rt: HostRuntime) -> Result<(), Fail> {
    table(
        &rt,
        rt.alloc(),
        "\
F S 1 1 0
b > writer 1
e 1 0 0 5 > changed
r 9 9 x > refused 12 S 6 at 4
m 1 1 > refused 12 S 4 at 5
c 1 x > refused 12 S 4 at 6
a 1 x > refused 12 S 4 at 7
e 9 9 9 9 > refused 12 S 6 at 8
g 1 0 > row 5 0 0 0 0 0 0 0
> end 1 1
",
    )
}

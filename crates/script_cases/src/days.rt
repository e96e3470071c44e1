// Whole runs: what reports and writers see, and which versions stay.
use crate::compare::{prints, table};
use std::test::Fail;

#[test]
fn a_truck_is_weighed_twice(rt: HostRuntime) -> Result<(), Fail> {
    prints(
        &rt,
        rt.alloc(),
        b"F S 2 2 0\nb\ne 1 0 3 8500\nm 1\no\nb\ne 3 0 3 8700\nm 3\nr 2 0\nv 0\nc 2\nc 2\n",
        "writer 1\nchanged\ncommitted 2 1\nreport 2\nwriter 3\nchanged\ncommitted 4 1\nrow 0 0 0 8500 0 0 0 0\nkept 1 4\nclosed\nrefused 4 R 2 at 12\nend 0 0\n",
    )?;
    prints(
        &rt,
        rt.alloc(),
        b"F S 2 2 0\nb\ne 1 0 3 8500\nm 1\no\nb\ne 3 0 3 8700\nm 3\nr 2 0\nv 0\nc 2\nc 2",
        "writer 1\nchanged\ncommitted 2 1\nreport 2\nwriter 3\nchanged\ncommitted 4 1\nrow 0 0 0 8500 0 0 0 0\nkept 1 4\nclosed\nrefused 4 R 2 at 12\nend 0 0\n",
    )
}

// Two reports between three commits; each closing drops what it alone needed.
#[test]
fn a_report_keeps_its_moment(rt: HostRuntime) -> Result<(), Fail> {
    table(
        &rt,
        rt.alloc(),
        "\
F S 1 4 0
o > report 0
b > writer 1
e 1 0 0 10 > changed
m 1 > committed 2 1
o > report 2
b > writer 3
e 3 0 0 20 > changed
m 3 > committed 4 1
b > writer 5
e 5 0 0 30 > changed
m 5 > committed 6 1
v 0 > kept 2 6 2
r 0 0 > row 0 0 0 0 0 0 0 0
r 2 0 > row 10 0 0 0 0 0 0 0
c 2 > closed
v 0 > kept 1 6
r 0 0 > row 0 0 0 0 0 0 0 0
c 0 > closed
v 0 > kept 0
> end 0 0
",
    )
}

// Counters add modulo 2^64, and a report undoes the sum.
#[test]
fn tallies_over_the_brim(rt: HostRuntime) -> Result<(), Fail> {
    table(
        &rt,
        rt.alloc(),
        "\
T L 1 3 0
o > report 0
b > writer 1
e 1 0 1 18446744073709551615 > changed
e 1 0 1 3 > changed
e 1 0 0 7 > changed
g 1 0 > row 7 2 0 0
m 1 > committed 2 1
o > report 2
b > writer 3
e 3 0 1 18446744073709551614 > changed
m 3 > committed 4 1
v 0 > kept 2 4 2
r 2 0 > row 7 2 0 0
r 0 0 > row 0 0 0 0
c 2 > closed
v 0 > kept 1 4
r 0 0 > row 0 0 0 0
> end 1 1
",
    )
}

// Attribute 3 was 85 when the report opened, and attribute 1 was 0.
#[test]
fn a_join_lets_the_older_value_stand(rt: HostRuntime) -> Result<(), Fail> {
    table(
        &rt,
        rt.alloc(),
        "\
F L 1 3 0
b > writer 1
e 1 0 3 85 > changed
m 1 > committed 2 1
o > report 2
b > writer 3
e 3 0 3 87 > changed
e 3 0 1 7 > changed
m 3 > committed 4 1
b > writer 5
e 5 0 3 89 > changed
m 5 > committed 6 1
v 0 > kept 1 6
r 2 0 > row 0 0 0 85 0 0 0 0
> end 1 1
",
    )
}

// In one gap both versions go, since the report reads the newest row; with a report between they both stay.
#[test]
fn a_value_comes_back(rt: HostRuntime) -> Result<(), Fail> {
    table(
        &rt,
        rt.alloc(),
        "\
F S 1 4 0
b > writer 1
e 1 0 3 85 > changed
m 1 > committed 2 1
o > report 2
b > writer 3
e 3 0 3 87 > changed
m 3 > committed 4 1
v 0 > kept 1 4
b > writer 5
e 5 0 3 85 > changed
m 5 > committed 6 1
v 0 > kept 0
r 2 0 > row 0 0 0 85 0 0 0 0
> end 0 1
",
    )?;
    table(
        &rt,
        rt.alloc(),
        "\
F S 1 4 0
b > writer 1
e 1 0 3 85 > changed
m 1 > committed 2 1
o > report 2
b > writer 3
e 3 0 3 87 > changed
m 3 > committed 4 1
o > report 4
b > writer 5
e 5 0 3 85 > changed
m 5 > committed 6 1
v 0 > kept 2 6 4
c 4 > closed
v 0 > kept 0
r 2 0 > row 0 0 0 85 0 0 0 0
> end 0 1
",
    )
}

// A commit that changes nothing is joined with the version before it in the same gap.
#[test]
fn no_change_leaves_the_newer_time(rt: HostRuntime) -> Result<(), Fail> {
    table(
        &rt,
        rt.alloc(),
        "\
F S 1 4 0
o > report 0
b > writer 1
e 1 0 0 5 > changed
m 1 > committed 2 1
v 0 > kept 1 2
b > writer 3
e 3 0 0 5 > changed
m 3 > committed 4 1
v 0 > kept 1 4
o > report 4
b > writer 5
e 5 0 0 5 > changed
m 5 > committed 6 1
v 0 > kept 1 4
> end 1 2
",
    )
}

// Its records stay held until it is abandoned; while the clock is still its number, a lease opened there revives it.
#[test]
fn a_closed_writer_is_stranded(rt: HostRuntime) -> Result<(), Fail> {
    table(
        &rt,
        rt.alloc(),
        "\
F S 1 2 0
b > writer 1
e 1 0 0 5 > changed
c 1 > closed
g 1 0 > refused 4 R 1 at 5
m 1 > refused 4 R 1 at 6
o > report 1
g 1 0 > row 5 0 0 0 0 0 0 0
e 1 0 1 6 > changed
c 1 > closed
b > writer 2
e 2 0 0 9 > refused 5 B 0 at 12
e 1 0 0 9 > refused 4 R 1 at 13
a 1 > abandoned 1
e 2 0 0 9 > changed
m 2 > committed 3 1
> end 0 0
",
    )
}

// Leases at equal times are alike.
#[test]
fn a_report_may_write(rt: HostRuntime) -> Result<(), Fail> {
    table(
        &rt,
        rt.alloc(),
        "\
T S 2 2 5
o > report 5
e 5 1 2 4 > changed
r 5 1 > row 0 0 0 0
g 5 1 > row 0 0 4 0
m 5 > committed 6 1
b > writer 7
r 7 1 > row 0 0 4 0
c 7 > closed
> end 0 0
",
    )
}

// And only that; one that holds nothing leaves the clock.
#[test]
fn commit_finishes_all_that_is_held(rt: HostRuntime) -> Result<(), Fail> {
    table(
        &rt,
        rt.alloc(),
        "\
F S 3 3 10
b > writer 11
b > writer 12
e 11 0 0 1 > changed
e 11 2 0 3 > changed
e 12 1 0 2 > changed
m 11 > committed 13 2
v 0 > kept 1 13
v 1 > kept 0
v 2 > kept 1 13
g 12 0 > row 0 0 0 0 0 0 0 0
g 12 1 > row 2 0 0 0 0 0 0 0
a 12 > abandoned 1
v 0 > kept 0
v 2 > kept 0
o > report 13
m 13 > committed 13 0
> end 0 0
",
    )
}

// The versions go with the last of them, and with a commit of nothing as with a close.
#[test]
fn two_leases_at_one_time(rt: HostRuntime) -> Result<(), Fail> {
    table(
        &rt,
        rt.alloc(),
        "\
F L 1 2 0
o > report 0
o > report 0
b > writer 1
e 1 0 7 4294967295 > changed
m 1 > committed 2 1
c 0 > closed
v 0 > kept 1 2
r 0 0 > row 0 0 0 0 0 0 0 0
m 0 > committed 2 0
v 0 > kept 0
o > report 2
r 2 0 > row 0 0 0 0 0 0 0 4294967295
> end 0 1
",
    )
}

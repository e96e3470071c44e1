// Refusals 3 to 9, each with its place, and their order.
use crate::compare::{full, table};
use std::test::Fail;

// Comes before 4.
#[test]
fn no_such_record(rt: HostRuntime) -> Result<(), Fail> {
    table(
        &rt,
        rt.alloc(),
        "\
F S 2 2 0
v 2 > refused 3 B 2 at 2
r 5 2 > refused 3 B 2 at 3
g 5 7 > refused 3 B 7 at 4
e 5 18446744073709551615 0 0 > refused 3 B 18446744073709551615 at 5
r 5 1 > refused 4 R 5 at 6
v 1 > kept 0
> end 0 0
",
    )
}

#[test]
fn no_lease_open(rt: HostRuntime) -> Result<(), Fail> {
    table(
        &rt,
        rt.alloc(),
        "\
T L 1 1 3
r 3 0 > refused 4 R 3 at 2
c 3 > refused 4 R 3 at 3
g 4 0 > refused 4 R 4 at 4
e 4 0 0 1 > refused 4 R 4 at 5
m 4 > refused 4 R 4 at 6
a 4 > abandoned 0
o > report 3
r 3 0 > row 0 0 0 0
c 3 > closed
c 3 > refused 4 R 3 at 11
> end 0 0
",
    )
}

// Comes before 6 and 7; the holder goes on.
#[test]
fn held_by_another_writer(rt: HostRuntime) -> Result<(), Fail> {
    table(
        &rt,
        rt.alloc(),
        "\
F S 2 1 0
b > writer 1
b > writer 2
e 1 0 2 10 > changed
e 2 0 2 20 > refused 5 B 0 at 5
e 1 0 2 11 > changed
g 1 0 > row 0 0 11 0 0 0 0 0
g 2 0 > row 0 0 0 0 0 0 0 0
a 1 > abandoned 1
e 2 0 2 20 > changed
g 2 0 > row 0 0 20 0 0 0 0 0
> end 1 1
",
    )
}

// Also when the chain has no version any more; another record is not concerned.
#[test]
fn last_time_above_the_writer(rt: HostRuntime) -> Result<(), Fail> {
    table(
        &rt,
        rt.alloc(),
        "\
F L 2 4 0
b > writer 1
b > writer 2
e 2 0 0 7 > changed
m 2 > committed 3 1
v 0 > kept 1 3
e 1 0 0 8 > refused 6 B 0 at 7
e 1 1 0 8 > changed
a 1 > abandoned 1
v 0 > kept 0
o > report 3
e 3 0 0 9 > changed
m 3 > committed 4 1
v 0 > kept 0
b > writer 5
b > writer 6
e 6 0 0 1 > changed
m 6 > committed 7 1
c 5 > closed
v 0 > kept 0
r 5 0 > refused 4 R 5 at 21
> end 0 0
",
    )
}

// The only version changed nothing, so it was dropped; 6 is refused all the same.
#[test]
fn the_chain_is_gone_and_the_last_time_stays(rt: HostRuntime) -> Result<(), Fail> {
    table(
        &rt,
        rt.alloc(),
        "\
F S 1 1 0
b > writer 1
b > writer 2
e 2 0 5 0 > changed
m 2 > committed 3 1
v 0 > kept 0
e 1 0 5 1 > refused 6 B 0 at 7
m 1 > committed 3 0
> end 0 0
",
    )
}

// A held record counts; one that is held already can change on; a dropped version is free again.
#[test]
fn every_version_in_use(rt: HostRuntime) -> Result<(), Fail> {
    table(
        &rt,
        rt.alloc(),
        "\
F S 3 2 0
b > writer 1
e 1 0 0 1 > changed
e 1 1 0 1 > changed
e 1 2 0 1 > refused 7 B 2 at 5
e 1 1 0 2 > changed
o > report 1
m 1 > committed 2 2
v 0 > kept 1 2
v 1 > kept 1 2
b > writer 3
e 3 2 0 1 > refused 7 B 2 at 12
e 3 0 0 1 > refused 7 B 0 at 13
c 1 > closed
e 3 2 0 1 > changed
e 3 0 0 9 > changed
e 3 1 0 9 > refused 7 B 1 at 17
a 3 > abandoned 2
r 3 2 > refused 4 R 3 at 19
> end 0 0
",
    )
}

// Begin is refused, and a Commit that holds a record; one that holds none is not.
#[test]
fn the_clock_at_its_limit(rt: HostRuntime) -> Result<(), Fail> {
    table(
        &rt,
        rt.alloc(),
        "\
F S 1 1 4294967294
b > writer 4294967295
b > refused 9 B 4294967295 at 3
o > report 4294967295
e 4294967295 0 0 1 > changed
m 4294967295 > refused 9 B 4294967295 at 6
g 4294967295 0 > row 1 0 0 0 0 0 0 0
a 4294967295 > abandoned 1
m 4294967295 > committed 4294967295 0
m 4294967295 > refused 4 R 4294967295 at 10
> end 0 0
",
    )?;
    table(
        &rt,
        rt.alloc(),
        "\
T L 1 1 4294967293
b > writer 4294967294
e 4294967294 0 3 9 > changed
m 4294967294 > committed 4294967295 1
o > report 4294967295
r 4294967295 0 > row 0 0 0 9
> end 0 1
",
    )
}

// Eight leases; 9 is looked at before 8, and a refused Begin leaves the clock.
#[test]
fn slots_are_full(rt: HostRuntime) -> Result<(), Fail> {
    full(
        &rt,
        rt.alloc(),
        "F L 1 1 0",
        8,
        "refused 8 R 8 at 10\nrefused 8 R 8 at 11\nend 0 8\n",
    )?;
    table(
        &rt,
        rt.alloc(),
        "\
F L 1 1 4294967291
o > report 4294967291
o > report 4294967291
o > report 4294967291
o > report 4294967291
b > writer 4294967292
b > writer 4294967293
b > writer 4294967294
o > report 4294967294
b > refused 8 R 8 at 10
o > refused 8 R 8 at 11
c 4294967291 > closed
b > writer 4294967295
b > refused 9 B 4294967295 at 14
o > refused 8 R 8 at 15
> end 0 8
",
    )
}

// Thirty-two leases.
#[test]
fn the_sorted_list_is_full(rt: HostRuntime) -> Result<(), Fail> {
    full(
        &rt,
        rt.alloc(),
        "T S 1 1 0",
        32,
        "refused 8 R 32 at 34\nrefused 8 R 32 at 35\nend 0 32\n",
    )
}

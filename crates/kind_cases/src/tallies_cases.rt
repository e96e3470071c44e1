use kind::Kind;
use kind::undoing::{undo_each, undo_joined};
use tallies::{Counts, Tallies, numbers};

const TOP: u64 = 18446744073709551615;

fn counts(values: [u64; 4]) -> Counts {
    Counts { values }
}

#[test]
fn an_edit_adds_and_undoing_subtracts(rt: HostRuntime) {
    let (after, change) = Tallies::edit(counts([0, 1, TOP, 5]), counts([1, TOP, 1, 0]));
    assert_eq!(rt; numbers(after), [1, 0, 0, 5]);
    assert_eq!(rt; numbers(change), [1, TOP, 1, 0]);
    assert_eq!(rt; numbers(Tallies::undo(after, change)), [0, 1, TOP, 5]);
}

#[test]
fn undoing_wraps_below_zero(rt: HostRuntime) {
    assert_eq!(rt;
        numbers(Tallies::undo(counts([0, 0, 1, TOP]), counts([1, TOP, TOP, TOP]))),
        [TOP, 1, 2, 0]
    );
}

#[test]
fn a_join_adds(rt: HostRuntime) {
    assert_eq!(rt;
        numbers(Tallies::join(counts([5, 0, 1, TOP]), counts([TOP - 2, 0, TOP, TOP]))),
        [2, 0, 0, TOP - 1]
    );
}

#[test]
fn joins_of_three_in_both_groupings(rt: HostRuntime) {
    let a = counts([1, TOP, 10, 0]);
    let b = counts([2, 1, 20, 0]);
    let c = counts([3, 1, TOP, 0]);
    assert_eq!(rt;
        numbers(Tallies::join(Tallies::join(a, b), c)),
        [6, 1, 29, 0]
    );
    assert_eq!(rt;
        numbers(Tallies::join(a, Tallies::join(b, c))),
        [6, 1, 29, 0]
    );
}

#[test]
fn undone_one_by_one_and_at_once(rt: HostRuntime) {
    let changes = [
        counts([1, 2, 3, 4]),
        counts([5, 6, 7, 8]),
        counts([TOP, 0, 0, 0]),
    ];
    assert_eq!(rt;
        numbers(undo_each::<Tallies>(counts([10, 10, 10, 10]), &changes)),
        [5, 2, 0, TOP - 1]
    );
    assert_eq!(rt;
        numbers(undo_joined::<Tallies>(counts([10, 10, 10, 10]), &changes)),
        [5, 2, 0, TOP - 1]
    );
}

#[test]
fn same_looks_at_every_counter(rt: HostRuntime) {
    assert!(rt; Tallies::same(counts([TOP; 4]), counts([TOP; 4])));
    assert!(rt; !Tallies::same(counts([1, 2, 3, 4]), counts([1, 2, 3, 5])));
    assert!(rt; !Tallies::same(counts([1, 2, 3, 4]), counts([0, 2, 3, 4])));
}

#[test]
fn blank_is_zero(rt: HostRuntime) {
    assert_eq!(rt; numbers(Tallies::blank()), [0; 4]);
}

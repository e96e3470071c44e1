use fields::{Attributes, Fields, Patch, numbers};
use kind::Kind;

const TOP: u32 = 4294967295;

fn row(values: [u32; 8]) -> Attributes {
    Attributes { values }
}

fn patch(mask: u8, values: [u32; 8]) -> Patch {
    Patch { mask, values }
}

#[test]
fn mask_0_changes_nothing(rt: HostRuntime) {
    let (after, change) = Fields::edit(row([1, 2, 3, 4, 5, 6, 7, 8]), patch(0, [9; 8]));
    assert_eq!(rt; numbers(after), [1, 2, 3, 4, 5, 6, 7, 8]);
    assert_eq!(rt; change, patch(0, [0; 8]));
    assert_eq!(rt;
        numbers(Fields::undo(after, change)),
        [1, 2, 3, 4, 5, 6, 7, 8]
    );
}

#[test]
fn mask_255_sets_all(rt: HostRuntime) {
    let (after, change) = Fields::edit(
        row([1, 2, 3, 4, 5, 6, 7, 8]),
        patch(255, [TOP, 0, 30, 40, 50, 60, 70, TOP]),
    );
    assert_eq!(rt; numbers(after), [TOP, 0, 30, 40, 50, 60, 70, TOP]);
    assert_eq!(rt; change, patch(255, [1, 2, 3, 4, 5, 6, 7, 8]));
    assert_eq!(rt;
        numbers(Fields::undo(after, change)),
        [1, 2, 3, 4, 5, 6, 7, 8]
    );
}

// Mask 129 has the bits 0 and 7.
#[test]
fn the_outer_bits(rt: HostRuntime) {
    let (after, change) = Fields::edit(
        row([1, 2, 3, 4, 5, 6, 7, 8]),
        patch(129, [10, 20, 30, 40, 50, 60, 70, 80]),
    );
    assert_eq!(rt; numbers(after), [10, 2, 3, 4, 5, 6, 7, 80]);
    assert_eq!(rt; change, patch(129, [1, 0, 0, 0, 0, 0, 0, 8]));
}

// Masks 8 (attribute 3) and 10 (attributes 1 and 3): where both have a value the older stands.
#[test]
fn overlapping_masks(rt: HostRuntime) {
    let newer = patch(8, [0, 0, 0, 8700, 0, 0, 0, 0]);
    let older = patch(10, [0, 7, 0, 8500, 0, 0, 0, 0]);
    assert_eq!(rt;
        Fields::join(newer, older),
        patch(10, [0, 7, 0, 8500, 0, 0, 0, 0])
    );
    assert_eq!(rt;
        Fields::join(older, newer),
        patch(10, [0, 7, 0, 8700, 0, 0, 0, 0])
    );
}

#[test]
fn disjoint_masks(rt: HostRuntime) {
    let newer = patch(3, [1, 2, 0, 0, 0, 0, 0, 0]);
    let older = patch(192, [0, 0, 0, 0, 0, 0, 7, 8]);
    assert_eq!(rt;
        Fields::join(newer, older),
        patch(195, [1, 2, 0, 0, 0, 0, 7, 8])
    );
}

// A value outside a join's masks does not come through, whatever a side holds there.
#[test]
fn outside_both_masks(rt: HostRuntime) {
    assert_eq!(rt;
        Fields::join(patch(1, [5; 8]), patch(2, [6; 8])),
        patch(3, [5, 6, 0, 0, 0, 0, 0, 0])
    );
}

#[test]
fn joins_of_three_in_both_groupings(rt: HostRuntime) {
    let a = patch(7, [11, 12, 13, 0, 0, 0, 0, 0]);
    let b = patch(14, [0, 22, 23, 24, 0, 0, 0, 0]);
    let c = patch(28, [0, 0, 33, 34, 35, 0, 0, 0]);
    assert_eq!(rt;
        Fields::join(Fields::join(a, b), c),
        patch(31, [11, 22, 33, 34, 35, 0, 0, 0])
    );
    assert_eq!(rt;
        Fields::join(a, Fields::join(b, c)),
        patch(31, [11, 22, 33, 34, 35, 0, 0, 0])
    );
}

#[test]
fn same_looks_at_every_attribute(rt: HostRuntime) {
    assert!(rt; Fields::same(row([TOP; 8]), row([TOP; 8])));
    assert!(rt; !Fields::same(row([1, 2, 3, 4, 5, 6, 7, 8]), row([1, 2, 3, 4, 5, 6, 7, 9])));
    assert!(rt; !Fields::same(row([1, 2, 3, 4, 5, 6, 7, 8]), row([0, 2, 3, 4, 5, 6, 7, 8])));
}

#[test]
fn blank_and_no_change(rt: HostRuntime) {
    assert_eq!(rt; numbers(Fields::blank()), [0; 8]);
    assert_eq!(rt;
        numbers(Fields::undo(row([1, 2, 3, 4, 5, 6, 7, 8]), Fields::no_change())),
        [1, 2, 3, 4, 5, 6, 7, 8]
    );
}

// Making a store: which sizes and starts are accepted.
use store::sizes::Sizes;

// The number and the place of the refusal, as the rules give them, or none.
fn refused(records: u64, versions: u64, start: u64) -> Option<(u8, u64)> {
    Sizes::check(records, versions, start)
        .err()
        .map(|fault| (fault.number(), fault.place))
}

#[test]
fn sizes_and_starts(rt: HostRuntime) {
    assert_eq!(rt; refused(1, 1, 0), None);
    assert_eq!(rt; refused(4096, 16384, 4294967295), None);
    assert_eq!(rt; refused(0, 0, 4294967296), Some((1, 0)));
    assert_eq!(rt; refused(4097, 0, 0), Some((1, 4097)));
    assert_eq!(rt; refused(1, 0, 4294967296), Some((1, 0)));
    assert_eq!(rt; refused(1, 16385, 0), Some((1, 16385)));
    assert_eq!(rt; refused(1, 1, 4294967296), Some((2, 4294967296)));
}

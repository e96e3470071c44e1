// What the examples are made of: rows with one attribute, versions that undo it, and registries.
use chain::version::Version;
use fields::{Attributes, Patch};
use lease::registry::Registry;
use slot_table::SlotTable;
use std::process::Abort;
use std::test::Fail;

// A row with x at attribute 0.
pub fn row(x: u32) -> Attributes {
    Attributes {
        values: [x, 0, 0, 0, 0, 0, 0, 0],
    }
}

// The version t {0: x}.
pub fn version(t: u32, x: u32) -> Version<Patch> {
    Version {
        time: t,
        change: Patch {
            mask: 1,
            values: [x, 0, 0, 0, 0, 0, 0, 0],
        },
    }
}

// A version says t {0: x}.
pub fn check_version(rt: &impl Abort, v: Version<Patch>, t: u32, x: u32) -> Result<(), Fail> {
    assert_eq!(rt; v.time, t);
    assert_eq!(rt; v.change.mask, 1);
    assert_eq!(rt; v.change.values, [x, 0, 0, 0, 0, 0, 0, 0]);
    Ok(())
}

// A registry with a lease open at each of the times.
pub fn opened(times: &[u32]) -> Result<SlotTable, Fail> {
    let mut registry = SlotTable::empty();
    for time in times {
        if registry.add(*time).is_err() {
            return Err(Fail::new("no room for a lease"));
        }
    }
    Ok(registry)
}

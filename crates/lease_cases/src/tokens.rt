// Tokens: taken, spent, written down and taken up again.
use lease::registry::Registry;
use lease::token::{Lease, Writer};
use slot_table::SlotTable;
use std::test::Fail;

#[test]
fn written_down_and_taken_up(rt: HostRuntime) -> Result<(), Fail> {
    let mut registry = SlotTable::empty();
    let Ok(lease) = Lease::open(&mut registry, 12) else {
        return Err(Fail::new("no lease"));
    };
    let time = lease.write_down();
    assert_eq!(rt; time, 12);
    assert_eq!(rt; registry.count_at(12), 1);
    assert!(rt; Lease::take_up(time).close(&mut registry).is_ok());
    let Err(fault) = Lease::take_up(time).close(&mut registry) else {
        return Err(Fail::new("closed twice"));
    };
    assert_eq!(rt; fault.number(), 4);
    assert_eq!(rt; fault.place, 12);
    Ok(())
}

#[test]
fn a_refused_writer_comes_back(rt: HostRuntime) -> Result<(), Fail> {
    let mut registry = SlotTable::empty();
    let Ok(writer) = Writer::open(&mut registry, 3) else {
        return Err(Fail::new("no writer"));
    };
    // An early `?` would let the writer go: none stands here until it is spent.
    let removed = registry.remove(writer.number()).is_ok();
    let Err((fault, back)) = writer.end(&mut registry) else {
        return Err(Fail::new("ended without a lease"));
    };
    let number = back.write_down();
    assert!(rt; removed);
    assert_eq!(rt; number, 3);
    assert_eq!(rt; fault.place, 3);
    assert!(rt; registry.add(3).is_ok());
    assert!(rt; Writer::take_up(number).abandon(&mut registry));
    assert!(rt; !Writer::take_up(number).abandon(&mut registry));
    assert_eq!(rt; registry.total(), 0);
    Ok(())
}

#[test]
fn refusals_as_text(rt: HostRuntime) -> Result<(), Fail> {
    let mut registry = SlotTable::empty();
    let Err(none_open) = registry.remove(2) else {
        return Err(Fail::new("removed from an empty registry"));
    };
    let text = format!(in rt.alloc(); "{none_open}")?;
    assert_eq!(rt; text.as_str(), "4 R 2");
    for _ in 0..8 {
        assert!(rt; registry.add(2).is_ok());
    }
    let Err(full) = registry.add(2) else {
        return Err(Fail::new("nine leases in eight slots"));
    };
    let text = format!(in rt.alloc(); "{full}")?;
    assert_eq!(rt; text.as_str(), "8 R 8");
    Ok(())
}

// What is printed of a fault, which no contract says.
use crate::part::PartFault;
use crate::recorded::RecordFault;
use crate::sheet::{SheetFault, SheetReason};
use crate::value::ValueFault;
use std::test::Fail;

#[test]
fn a_fault_is_printed_by_its_number(rt: HostRuntime) -> Result<(), Fail> {
    let at_slot = SheetFault::new(SheetReason::SlotEmpty).at_slot(5);
    assert_eq!(rt; at_slot.to_string(rt.alloc())?.as_str(), "refused with 3");
    let value = SheetFault::from(ValueFault::NotSixteenths);
    assert_eq!(rt; value.to_string(rt.alloc())?.as_str(), "refused with 8");
    let part = RecordFault::from(PartFault::OutsideLimits);
    assert_eq!(rt; part.to_string(rt.alloc())?.as_str(), "refused with 10");
    Ok(())
}

#[test]
fn a_reason_is_printed_in_words(rt: HostRuntime) -> Result<(), Fail> {
    let too_strong = SheetReason::TooStrong;
    assert_eq!(rt;
        too_strong.to_string(rt.alloc())?.as_str(),
        "the plates would be too strong together"
    );
    let value = SheetReason::Value(ValueFault::OutOfRange);
    assert_eq!(rt;
        value.to_string(rt.alloc())?.as_str(),
        "the value is none that can be kept"
    );
    Ok(())
}

// Entering, striking and showing rows, by the rules of the slots.
use crate::held::Sheet;
use faults::SheetFault;
use loads::{Effect, EffectKind, LoadType};

// The number of the refusal, if any.
fn refusal(res: Result<(), SheetFault>) -> Option<u8> {
    res.err().map(SheetFault::number)
}

// The sixteenths of the row in a slot, or the number of the refusal.
fn shown(sheet: &Sheet, slot: u8) -> Result<Option<i32>, u8> {
    let row = sheet.row(slot).map_err(SheetFault::number)?;
    Ok(row.map(|row| row.sixteenths))
}

#[test]
fn first_refusal_is_given(rt: HostRuntime) {
    let mut sheet = Sheet::new();
    let unfit = Effect::Shear(0.03);
    assert_eq!(rt;
        refusal(sheet.enter(63, LoadType::Dc, Effect::Moment(-160.0))),
        None
    );
    assert_eq!(rt; refusal(sheet.enter(64, LoadType::Ll, unfit)), Some(1));
    assert_eq!(rt; refusal(sheet.enter(63, LoadType::Ll, unfit)), Some(2));
    assert_eq!(rt; refusal(sheet.enter(62, LoadType::Ll, unfit)), Some(8));
    assert_eq!(rt; refusal(sheet.strike(62)), Some(3));
    assert_eq!(rt; refusal(sheet.strike(64)), Some(1));
    assert_eq!(rt; shown(&sheet, 63), Ok(Some(-2560)));
}

#[test]
fn rows_come_and_go(rt: HostRuntime) {
    let mut sheet = Sheet::new();
    assert_eq!(rt;
        refusal(sheet.enter(0, LoadType::Dw, Effect::Shear(1.5))),
        None
    );
    assert_eq!(rt; shown(&sheet, 0), Ok(Some(24)));
    assert_eq!(rt; shown(&sheet, 1), Ok(None));
    assert_eq!(rt; shown(&sheet, 64), Err(1));
    assert_eq!(rt; sheet.type_sums(EffectKind::Shear), [0, 24, 0, 0]);
    assert_eq!(rt; refusal(sheet.strike(0)), None);
    assert_eq!(rt; shown(&sheet, 0), Ok(None));
}

// Records that are refused in part, and steps that are refused as a whole.
use crate::stepped::Stepped;
use crate::stepping::step;
use crate::transcripts::transcript;
use sheet::Sheet;
use std::test::Fail;

// The number of the step's refusal.
fn refusal(stepped: Stepped) -> Option<u8> {
    stepped.fault.map(|at| at.fault.number())
}

#[test]
fn an_unknown_command_ends_the_record(rt: HostRuntime) -> Result<(), Fail> {
    let bytes = [
        0x04, 0, 1, 1, 0, 0, 0x06, 0x40, 0x06, 1, 1, 0x05, 2, 0xff, 0x05, 0,
    ];
    let lines = transcript(rt.alloc(), &bytes)?;
    let expected = b"6 low 144000 high 200000\nfault at 11 sheet 3\nfault at 13 record 16\n";
    assert_eq!(rt; lines.as_slice(), expected.as_slice());
    Ok(())
}

#[test]
fn a_command_is_cut_short(rt: HostRuntime) -> Result<(), Fail> {
    let lines = transcript(rt.alloc(), &[0x05, 0, 0x06, 1])?;
    assert_eq!(rt;
        lines.as_slice(),
        b"fault at 0 sheet 3\nfault at 2 record 17\n".as_slice()
    );
    Ok(())
}

#[test]
fn a_girder_in_bending_and_shear(rt: HostRuntime) -> Result<(), Fail> {
    let flanges_and_web =
        b"\x01\x00\x01\x00\x80\x00\xc0\x00\x10\x00\x00\xc3\x50\x01\x01\x02\x00\x90\x00\x08\x02\x80\x00\x00\xc3\x50\x01\x02\x03\x03\x10\x01\x00\x00\x18\x00\x00\xc3\x50";
    let questions = b"\x07\x01\x00\x00\x06\x00\x00\x80\x0f\xa0\x08\x01\x00\x00\x08\x01\x03\xc0";
    let mut bytes = Vec::new(rt.alloc());
    bytes.extend_from_slice(flanges_and_web)?;
    bytes.extend_from_slice(questions)?;
    let lines = transcript(rt.alloc(), bytes.as_slice())?;
    let expected =
        b"7 level 131 moment 81830493 mn 78271676 verdict 0\n8 shear 105629600 verdict 0\n8 shear 134517438 verdict 0\n";
    assert_eq!(rt; lines.as_slice(), expected.as_slice());
    Ok(())
}

#[test]
fn a_place_past_the_end(rt: HostRuntime) {
    let mut sheet = Sheet::new();
    let mut line = [b'.'; 64];
    let stepped = step(&mut sheet, &[0x05], 2, &mut line);
    assert_eq!(rt; refusal(stepped), Some(17));
    assert_eq!(rt; stepped.place, 1);
    assert_eq!(rt; stepped.written, 21);
    assert_eq!(rt; &line[0..24], b"fault at 2 record 17\n...".as_slice());
}

#[test]
fn a_buffer_of_63_bytes(rt: HostRuntime) {
    let mut sheet = Sheet::new();
    let mut line = [b'.'; 63];
    let stepped = step(&mut sheet, &[0x05, 0], 2, &mut line);
    assert_eq!(rt; refusal(stepped), Some(18));
    assert_eq!(rt; stepped.place, 2);
    assert_eq!(rt; stepped.written, 0);
    assert_eq!(rt; line, [b'.'; 63]);
}

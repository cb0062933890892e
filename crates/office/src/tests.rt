// A transcript that fits, with and without being measured first, and one that does not.
use crate::interface::mosvitar_transcript;

// Two lines, of 19 and 21 bytes.
const RECORD: [u8; 4] = [0x05, 0, 0x06, 1];

#[test]
fn a_buffer_as_long_as_the_transcript(rt: HostRuntime) {
    let mut out = [b'.'; 40];
    assert_eq!(rt; mosvitar_transcript(&RECORD, &mut out), 40);
    assert_eq!(rt; &out, b"fault at 0 sheet 3\nfault at 2 record 17\n");
}

#[test]
fn a_buffer_one_byte_too_short(rt: HostRuntime) {
    let mut out = [b'.'; 39];
    assert_eq!(rt; mosvitar_transcript(&RECORD, &mut out), 40);
    assert_eq!(rt; out, [b'.'; 39]);
}

#[test]
fn a_buffer_that_is_surely_long_enough(rt: HostRuntime) {
    let mut out = [b'.'; 160];
    assert_eq!(rt; mosvitar_transcript(&RECORD, &mut out), 40);
    assert_eq!(rt;
        &out[0..43],
        b"fault at 0 sheet 3\nfault at 2 record 17\n...".as_slice()
    );
}

#[test]
fn a_record_that_is_too_long(rt: HostRuntime) {
    let mut out = [b'.'; 22];
    assert_eq!(rt; mosvitar_transcript(&[0; 65537], &mut out), 21);
    assert_eq!(rt; &out, b"fault at 0 record 20\n.");
}

// What C calls.
ghost use Rattle.office.specs.Filling.{Fills};

use crate::filling::fill;

// Returns the length of the record's transcript, and writes it to the front of the buffer where it
// fits; where it does not, the buffer is left as it is.
#[unsafe(no_mangle)]
pub extern "C" fn mosvitar_transcript(bytes: &[u8], out: &mut [u8]) -> usize
    ensures { Fills bytes.now out.old result out.new }
{
    // a buffer under 32 × (the record's length + 1) bytes may be too short, and is not written before the lines have been measured
    if out.len() / 32 <= bytes.len() {
        let n = fill(bytes, &mut []);
        if n > out.len() {
            return n;
        }
    }
    fill(bytes, out)
}

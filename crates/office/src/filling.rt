// The lines of a record, one behind another in a buffer.
ghost use Rattle.std.specs.Prelude.{◌+◌, ◌^◌, ◌<◌, length};
ghost use Rattle.office.specs.Filling.{Puts, RunsThrough};

use record::{Reading, TOO_LONG_LINE};

// Runs a record's commands on a new sheet, counts the bytes of their lines, and writes each line
// that fits; of a record over 65,536 bytes its fault line alone. `record`'s `transcript` says why it stands beside this.
pub(crate) fn fill(bytes: &[u8], out: &mut [u8]) -> usize
    ensures { RunsThrough bytes.now out.old result out.new }
{
    let Ok(mut reading) = Reading::new(bytes) else {
        put(out, 0, TOO_LONG_LINE);
        return TOO_LONG_LINE.len();
    };
    let mut line = [0; 64];
    // the buffer is C's and may be too short, so the count of bytes stands beside it
    let mut n = 0;
    while let Some(written) = reading.next_line(&mut line) {
        put(out, n, &line[..written]);
        n += written;
    }
    n
}

// Writes a line to a place of the buffer, where it fits.
fn put(out: &mut [u8], at: usize, line: &[u8])
    requires { at + length line.now < 2 ^ 64 }
    ensures { Puts out.old at line.now out.new }
{
    // an accepted change has no line: without this test a record of changes takes 1.1 times as long
    if line.is_empty() {
        return;
    }
    let end = at + line.len();
    if end <= out.len() {
        out[at..end].copy_from_slice(line);
    }
}

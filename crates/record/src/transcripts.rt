// The whole transcript of a record.
ghost use Rattle.std.specs.Prelude.{IfOk};
ghost use Rattle.record.specs.Transcripts.{Transcript};

use crate::reading::Reading;
use std::alloc::{AllocError, Global};

// The one line of a record over 65,536 bytes, as `write_fault` would write it. A constant: `write_fault` is this crate's alone, and `office` prints the
// line too.
pub const TOO_LONG_LINE: &[u8; 21] = b"fault at 0 record 20\n";

// The lines of all steps from a new sheet and the record's first byte to its end; of a record over
// 65,536 bytes its fault line alone. As `office`'s `fill`, but that the heap may lack memory at each line, where a buffer of C's may lack room and each
// line is counted: one function of both, which would take from its caller what to do with a line, would be no plainer.
pub fn transcript(heap: Global, bytes: &[u8]) -> Result<Vec<u8>, AllocError>
    ensures { IfOk result (λ v. Transcript bytes.now v.items) }
{
    let mut lines = Vec::new(heap);
    let Ok(mut reading) = Reading::new(bytes) else {
        lines.extend_from_slice(TOO_LONG_LINE)?;
        return Ok(lines);
    };
    let mut line = [0; 64];
    while let Some(written) = reading.next_line(&mut line) {
        lines.extend_from_slice(&line[..written])?;
    }
    Ok(lines)
}

// One step of the reader.
ghost use Rattle.std.specs.Prelude.{◌≡◌, length};
ghost use Rattle.faults.specs.declared.recorded.RecordFault.TheVariants.{Reading};
ghost use Rattle.sheet.specs.Ledger.{ledger};
ghost use Rattle.record.specs.Runs.{Delivers};
ghost use Rattle.record.specs.Steps.{Advances, GoesOn, MakesStep, fault_at};

use crate::limits::LONGEST;
use crate::lines::write_fault;
use crate::running::run;
use crate::stepped::Stepped;
use faults::{Fault, ReadFault, RecordFault};
use sheet::Sheet;

// Runs the command at a place of the record, and writes its line, or that of its fault, to the
// front of the buffer.
pub fn step(sheet: &mut Sheet, bytes: &[u8], place: usize, line: &mut [u8]) -> Stepped
    ensures { MakesStep (ledger sheet.old) bytes.now place line.old (ledger sheet.new) result line.new }
{
    if bytes.len() > LONGEST {
        return halted(place, ReadFault::TooLong);
    }
    let Some(front) = line.first_chunk_mut::<64>() else {
        return halted(place, ReadFault::ShortBuffer);
    };
    go_on(sheet, bytes, place, front)
}

// The reader stays, and writes no line.
fn halted(place: usize, fault: ReadFault) -> Stepped
    ensures { result ≡ record { place = place; written = 0; fault = fault_at place (Reading fault) } }
{
    let fault = Fault {
        place,
        fault: RecordFault::Reading(fault),
    };
    Stepped {
        place,
        written: 0,
        fault: Some(fault),
    }
}

// A step of a record that is not too long, with room for its line. Sheet, bytes and place one by one: `step` is lent a sheet and so has no `Reading`,
// and a struct of borrows for this call would be no plainer.
fn go_on(sheet: &mut Sheet, bytes: &[u8], place: usize, line: &mut [u8; 64]) -> Stepped
    ensures long { length line.new ≡ 64 }
    ensures goes_on { GoesOn (ledger sheet.old) bytes.now place line.old (ledger sheet.new) result line.new }
{
    let (next, result) = advance(sheet, bytes, place, line);
    match result {
        Ok(written) => Stepped {
            place: next,
            written,
            fault: None,
        },
        Err(fault) => {
            let written = write_fault(line, place, fault);
            Stepped {
                place: next,
                written,
                fault: Some(Fault { place, fault }),
            }
        }
    }
}

// The place of the next command, and the length of this one's line or its fault; beside the `Result`, since a fault has a next place too.
fn advance(
    sheet: &mut Sheet,
    bytes: &[u8],
    place: usize,
    line: &mut [u8; 64],
) -> (usize, Result<usize, RecordFault>)
    ensures { Delivers (Advances (ledger sheet.old) bytes.now place (ledger sheet.new) result.0) line.old result.1 line.new }
{
    let end = bytes.len();
    if place == end {
        return (place, Ok(0));
    }
    if place > end {
        return (end, Err(RecordFault::Reading(ReadFault::CutShort)));
    }
    match command::read(&bytes[place..]) {
        Ok((command, rest)) => (end - rest.len(), run(sheet, command, line)),
        Err(fault) => (end, Err(RecordFault::Reading(fault))),
    }
}

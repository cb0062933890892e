// A record that is being read, command by command.
ghost use Rattle.std.specs.Prelude.{◌≤◌, length};

use crate::limits::LONGEST;
use crate::stepping::step;
use faults::ReadFault;
use sheet::Sheet;

#[derive(Drop)]
pub struct Reading<'a> {
    sheet: Sheet,
    bytes: &'a [u8],
    // where the next command starts
    place: usize,
    ghost few: { length bytes.now ≤ 65536 },
    ghost within: { place ≤ length bytes.now },
}

impl<'a> Reading<'a> {
    ghost use Rattle.record.specs.Readings.{Opens, Continues};

    // At the record's first byte, with a new sheet; refused with 20 over 65,536 bytes.
    pub fn new(bytes: &'a [u8]) -> Result<Reading<'a>, ReadFault>
        ensures { Opens bytes.now result }
    {
        if bytes.len() > LONGEST {
            return Err(ReadFault::TooLong);
        }
        Ok(Reading {
            sheet: Sheet::new(),
            bytes,
            place: 0,
        })
    }

    // Runs the next command, and writes its line, or that of its fault, to the front of the buffer. The line's length, 0 for none, as a step tells
    // it; `None` at the record's end.
    pub fn next_line(&mut self, line: &mut [u8; 64]) -> Option<usize>
        ensures { Continues self.old line.old result self.new line.new }
    {
        if self.place == self.bytes.len() {
            return None;
        }
        let stepped = step(&mut self.sheet, self.bytes, self.place, line);
        self.place = stepped.place;
        Some(stepped.written)
    }
}

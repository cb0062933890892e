// Faults of a record's bytes and of the reader's buffer.
ghost use Rattle.std.specs.Prelude.{◌≡◌};
ghost use Rattle.faults.specs.Numbers.{read_number};

use thiserror::Error;

#[derive(Clone, Copy, Debug, PartialEq, Eq, Error)]
#[error("refused with {}", self.number())]
pub enum ReadFault {
    UnknownCommand,
    // a command cut short, or a place past the record's end
    CutShort,
    // a line buffer under 64 bytes
    ShortBuffer,
    // an unknown load type or effect code
    UnknownCode,
    // a record over 65,536 bytes
    TooLong,
}

impl ReadFault {
    pub fn number(self) -> u8
        ensures { result ≡ read_number self }
    {
        match self {
            ReadFault::UnknownCommand => 16,
            ReadFault::CutShort => 17,
            ReadFault::ShortBuffer => 18,
            ReadFault::UnknownCode => 19,
            ReadFault::TooLong => 20,
        }
    }
}

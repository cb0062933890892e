// A fault on its way up: what it is, and the place of its command in the record.
use crate::recorded::RecordFault;

#[derive(Clone, Copy, Debug, PartialEq, Eq)]
pub struct Fault {
    pub place: usize,
    pub fault: RecordFault,
}

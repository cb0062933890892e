// The answer to the shear question.
use crate::answers::Verdict;

#[derive(Clone, Copy, Debug, PartialEq, Eq)]
pub struct ShearAnswer {
    // V in force units, 1/256 pound
    pub resistance: u64,
    pub verdict: Verdict,
}

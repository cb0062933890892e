// Faults of a question and of what it is asked with.
ghost use Rattle.std.specs.Prelude.{◌≡◌};
ghost use Rattle.faults.specs.Numbers.{question_number};

use thiserror::Error;

#[derive(Clone, Copy, Debug, PartialEq, Eq, Error)]
#[error("refused with {}", self.number())]
pub enum QuestionFault {
    // a smallest plastic moment of 0
    NoMoment,
    // a flange or the web that the question reads is missing
    PlateMissing,
    // a stiffener spacing outside its range
    SpacingLimits,
    // a stud outside its limits
    StudLimits,
    // a low factor above its high one, or a factor above 1,000
    UnlawfulFactors,
    // a published limit state's number that is not 1 to 9
    UnknownState,
}

impl QuestionFault {
    pub fn number(self) -> u8
        ensures { result ≡ question_number self }
    {
        match self {
            QuestionFault::NoMoment => 11,
            QuestionFault::PlateMissing => 12,
            QuestionFault::SpacingLimits => 13,
            QuestionFault::StudLimits => 14,
            QuestionFault::UnlawfulFactors => 15,
            QuestionFault::UnknownState => 15,
        }
    }
}

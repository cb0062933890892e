// The published limit states and their numbers.
ghost use Rattle.loads.specs.Published.{Numbered};

use faults::QuestionFault;

#[derive(Clone, Copy, Debug, PartialEq, Eq)]
pub enum PublishedState {
    StrengthI,
    StrengthII,
    StrengthIII,
    StrengthIV,
    StrengthV,
    ServiceI,
    ServiceII,
    FatigueI,
    FatigueII,
}

// The state of this number; refused with 15 where it is not 1 to 9.
impl TryFrom<u8> for PublishedState {
    type Error = QuestionFault;

    ghost try_from_gives = { Numbered };

    fn try_from(number: u8) -> Result<PublishedState, QuestionFault> {
        match number {
            1 => Ok(PublishedState::StrengthI),
            2 => Ok(PublishedState::StrengthII),
            3 => Ok(PublishedState::StrengthIII),
            4 => Ok(PublishedState::StrengthIV),
            5 => Ok(PublishedState::StrengthV),
            6 => Ok(PublishedState::ServiceI),
            7 => Ok(PublishedState::ServiceII),
            8 => Ok(PublishedState::FatigueI),
            9 => Ok(PublishedState::FatigueII),
            _ => Err(QuestionFault::UnknownState),
        }
    }
}

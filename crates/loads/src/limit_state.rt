// Limit states: what they hold, and how they are made.
ghost use Rattle.std.specs.Prelude.{◌≡◌};
ghost use Rattle.std.specs.List.{list_all};
ghost use Rattle.loads.specs.Factors.{Lawful, range, is_range};
ghost use Rattle.loads.specs.Published.{factors_of};

use crate::load_type::LoadType;
use crate::published::PublishedState;
use faults::QuestionFault;

// For each load type, in the order DC, DW, LL, WS, a low and a high factor in hundredths. Pairs, as `new`, which is public, takes them; with names for
// the two the published table would have 72 words more.
#[derive(Clone, Copy, Debug, PartialEq, Eq)]
pub struct LimitState {
    pub(crate) factors: [(u16, u16); 4],
    ghost lawful: { Lawful factors },
}

fn is_lawful(factors: [(u16, u16); 4]) -> bool
    ensures { result ≡ list_all is_range factors }
{
    factors
        .iter()
        .all(|&(low, high)| low <= high && high <= 1000)
}

impl LimitState {
    ghost use Rattle.loads.specs.States.{Makes, Publishes};

    // The state of these factors, for DC, DW, LL and WS; refused with 15 where they are unlawful.
    pub fn new(factors: [(u16, u16); 4]) -> Result<LimitState, QuestionFault>
        ensures { Makes factors result }
    {
        if !is_lawful(factors) {
            return Err(QuestionFault::UnlawfulFactors);
        }
        Ok(LimitState { factors })
    }

    // The published state of this number; refused with 15 where it is not 1 to 9. By number, as a record asks for it; public, and so it stays beside
    // `PublishedState`, from which a state is made without refusal.
    pub fn published(number: u8) -> Result<LimitState, QuestionFault>
        ensures { Publishes number result }
    {
        let state = PublishedState::try_from(number)?;
        Ok(LimitState::from(state))
    }

    // The low and the high factor of a load type.
    pub fn factors(&self, load: LoadType) -> (u16, u16)
        ensures { result ≡ range self.now.factors load }
    {
        self.factors[usize::from(load)]
    }
}

// The factors of the published table.
impl From<PublishedState> for LimitState {
    ghost from_gives = { λ s state. state.factors ≡ factors_of s };

    fn from(state: PublishedState) -> LimitState {
        // DC, DW, LL and WS
        let factors = match state {
            PublishedState::StrengthI => [(90, 125), (65, 150), (0, 175), (0, 0)],
            PublishedState::StrengthII => [(90, 125), (65, 150), (0, 135), (0, 0)],
            PublishedState::StrengthIII => [(90, 125), (65, 150), (0, 0), (0, 140)],
            PublishedState::StrengthIV => [(90, 150), (65, 150), (0, 0), (0, 0)],
            PublishedState::StrengthV => [(90, 125), (65, 150), (0, 135), (0, 40)],
            PublishedState::ServiceI => [(100, 100), (100, 100), (0, 100), (0, 30)],
            PublishedState::ServiceII => [(100, 100), (100, 100), (0, 130), (0, 0)],
            PublishedState::FatigueI => [(0, 0), (0, 0), (0, 150), (0, 0)],
            PublishedState::FatigueII => [(0, 0), (0, 0), (0, 75), (0, 0)],
        };
        LimitState { factors }
    }
}

// Values and limit states at the edges of their rules.
use crate::effect::Effect;
use crate::limit_state::LimitState;
use crate::load_type::LoadType;
use crate::published::PublishedState;
use faults::{QuestionFault, ValueFault};
use std::test::Fail;

// The sixteenths, or the number of the refusal.
fn told(effect: Effect) -> Result<i32, u8> {
    effect.sixteenths().map_err(ValueFault::number)
}

// The number of the refusal, if it is one.
fn refusal(made: Result<LimitState, QuestionFault>) -> Option<u8> {
    made.err().map(QuestionFault::number)
}

#[test]
fn values_in_sixteenths(rt: HostRuntime) {
    assert_eq!(rt; told(Effect::Moment(1.5)), Ok(24));
    assert_eq!(rt; told(Effect::Shear(-0.0)), Ok(0));
    assert_eq!(rt; told(Effect::Moment(-131072.0)), Ok(-2097152));
    assert_eq!(rt; told(Effect::Moment(131072.0)), Ok(2097152));
    assert_eq!(rt; told(Effect::Shear(131072.0625)), Err(7));
    assert_eq!(rt; told(Effect::Shear(0.03)), Err(8));
    assert_eq!(rt; told(Effect::Moment(1.0 / 0.0)), Err(7));
    assert_eq!(rt; told(Effect::Moment(0.0 / 0.0)), Err(7));
}

#[test]
fn limit_states_refused(rt: HostRuntime) {
    assert_eq!(rt; refusal(LimitState::published(0)), Some(15));
    assert_eq!(rt; refusal(LimitState::published(10)), Some(15));
    let low_above_high = [(90, 125), (151, 150), (0, 0), (0, 0)];
    assert_eq!(rt; refusal(LimitState::new(low_above_high)), Some(15));
    assert_eq!(rt; refusal(LimitState::new([(0, 1001); 4])), Some(15));
    assert_eq!(rt; refusal(LimitState::new([(1000, 1000); 4])), None);
}

#[test]
fn wind_in_strength_v(rt: HostRuntime) -> Result<(), Fail> {
    let state = LimitState::published(5)?;
    assert_eq!(rt; state.factors(LoadType::Ws), (0, 40));
    assert_eq!(rt; state, LimitState::from(PublishedState::StrengthV));
    Ok(())
}

// A call on a sheet: a change or a question, with a part of any kind.
use loads::{Effect, EffectKind, LimitState, LoadType};
use section::Sense;
use sheet::PlateInput;

#[derive(Clone, Debug, Drop, PartialEq)]
pub enum Call<P> {
    Place {
        slot: u8,
        plate: PlateInput,
    },
    Lift {
        slot: u8,
    },
    Lower {
        levels: u16,
    },
    Enter {
        slot: u8,
        load: LoadType,
        effect: Effect,
    },
    Strike {
        slot: u8,
    },
    Extremes {
        state: LimitState,
        kind: EffectKind,
    },
    Axis {
        part: P,
        sense: Sense,
    },
    Bending {
        part: P,
        state: LimitState,
    },
}

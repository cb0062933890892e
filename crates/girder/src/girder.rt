// The girder: its plates and load effects, and what is asked of it, as one list of calls.
use cover_plate::CoverPlate;
use faults::PartFault;
use kinds::{Deck, Either, Slab};
use loads::{Effect, EffectKind, LimitState, LoadType, PublishedState};
use runs::Call;
use section::Sense;
use sheet::{PlateInput, Role};
use std::alloc::{AllocError, Global};

// The two kinds of part that stand in the list: the library's deck and a kind from outside it.
pub(crate) type Piece = Either<Deck, CoverPlate>;

pub(crate) const FY: u32 = 50_000;

pub(crate) const SLAB: Slab = Slab {
    top: 0,
    breadth: 1536,
    height: 128,
    fc: 4000,
};

// The cover plate, right below the bottom flange: `CoverPlate::new` takes four numbers, and a struct of them would be taken apart at once.
pub(crate) const COVER_TOP: u16 = 808;

pub(crate) const COVER_BREADTH: u16 = 256;

pub(crate) const COVER_HEIGHT: u16 = 16;

pub(crate) fn deck() -> Result<Deck, PartFault> {
    Deck::try_new(SLAB, &[])
}

pub(crate) fn cover() -> Result<CoverPlate, PartFault> {
    let cover = CoverPlate::new(COVER_TOP, COVER_BREADTH, COVER_HEIGHT, FY);
    cover.ok_or(PartFault::OutsideLimits)
}

pub(crate) fn strength_one() -> LimitState {
    LimitState::from(PublishedState::StrengthI)
}

// Every call on the girder's sheet, in order.
pub(crate) fn calls(
    heap: Global,
    deck: Deck,
    cover: CoverPlate,
) -> Result<Vec<Call<Piece>>, AllocError> {
    let state = strength_one();
    let mut calls = Vec::new(heap);
    place_plates(&mut calls)?;
    calls.push(axis(Either::Second(cover)))?;
    // the web's slot is full, so that this plate is refused
    calls.push(place(1, Role::Other, 128, 160, 12))?;
    enter_effects(&mut calls)?;
    calls.push(axis(Either::First(deck)))?;
    calls.push(Call::Extremes {
        state,
        kind: EffectKind::Moment,
    })?;
    calls.push(Call::Extremes {
        state,
        kind: EffectKind::Shear,
    })?;
    calls.push(bending(Either::First(deck), state))?;
    calls.push(bending(Either::Second(cover), state))?;
    Ok(calls)
}

fn place_plates(calls: &mut Vec<Call<Piece>>) -> Result<(), AllocError> {
    calls.push(place(0, Role::TopFlange, 128, 192, 16))?;
    calls.push(place(1, Role::Web, 144, 8, 640))?;
    calls.push(place(2, Role::BottomFlange, 784, 256, 24))?;
    Ok(())
}

fn enter_effects(calls: &mut Vec<Call<Piece>>) -> Result<(), AllocError> {
    calls.push(enter(0, LoadType::Dc, Effect::Moment(1000.0)))?;
    calls.push(enter(1, LoadType::Dw, Effect::Moment(200.0)))?;
    calls.push(enter(2, LoadType::Ll, Effect::Moment(1500.0)))?;
    calls.push(enter(3, LoadType::Dc, Effect::Shear(100.0)))?;
    calls.push(enter(4, LoadType::Ll, Effect::Shear(120.0)))?;
    Ok(())
}

fn place(slot: u8, role: Role, top: u16, breadth: u16, height: u16) -> Call<Piece> {
    Call::Place {
        slot,
        plate: PlateInput {
            role: u8::from(role),
            top,
            breadth,
            height,
            fy: FY,
        },
    }
}

fn enter(slot: u8, load: LoadType, effect: Effect) -> Call<Piece> {
    Call::Enter { slot, load, effect }
}

fn axis(part: Piece) -> Call<Piece> {
    Call::Axis {
        part,
        sense: Sense::Sagging,
    }
}

fn bending(part: Piece, state: LimitState) -> Call<Piece> {
    Call::Bending { part, state }
}

pub(crate) fn is_change(call: &Call<Piece>) -> bool {
    !matches!(
        call,
        Call::Extremes { .. } | Call::Axis { .. } | Call::Bending { .. }
    )
}

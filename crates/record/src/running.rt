// Runs one command on a sheet.
ghost use Rattle.std.specs.Prelude.{◌≡◌};
ghost use Rattle.sheet.specs.Ledger.{ledger};
ghost use Rattle.loads.specs.Codes.{load_type, effect_kind};
ghost use Rattle.record.specs.Codes.{spacing_of};
ghost use Rattle.record.specs.Runs.{Delivers, Silently, Runs, Enters, AsksExtremes, TellsBending, TellsShear, no_line};

use crate::codes::spacing_of;
use crate::lines::{write_bending, write_extremes, write_shear};
use command::Command;
use faults::{RecordFault, SheetFault};
use kinds::{Deck, Slab};
use loads::{Effect, EffectKind, LimitState, LoadType};
use sheet::{PlateInput, Sheet};

// Runs a command; its line, where it has one, goes to the front of the buffer, and its length is
// returned: 0 of a command that writes none, so that `&line[..n]` is what was written in any case.
pub(crate) fn run(
    sheet: &mut Sheet,
    command: Command,
    line: &mut [u8; 64],
) -> Result<usize, RecordFault>
    ensures { Delivers (Runs (ledger sheet.old) command (ledger sheet.new)) line.old result line.new }
{
    match command {
        Command::Place {
            slot,
            role,
            top,
            breadth,
            height,
            fy,
        } => {
            let plate = PlateInput {
                role,
                top,
                breadth,
                height,
                fy,
            };
            no_line(sheet.place(slot, plate))
        }
        Command::Lift { slot } => no_line(sheet.lift(slot)),
        Command::Lower { levels } => no_line(sheet.lower(levels)),
        Command::Enter {
            slot,
            load,
            effect,
            sixteenths,
        } => run_enter(sheet, slot, load, effect, sixteenths),
        Command::Strike { slot } => no_line(sheet.strike(slot)),
        Command::Extremes { state, effect } => run_extremes(sheet, state, effect, line),
        Command::Bending {
            state,
            top,
            breadth,
            height,
            fc,
        } => {
            run_bending(
                sheet,
                state,
                Slab {
                    top,
                    breadth,
                    height,
                    fc,
                },
                line,
            )
        }
        Command::Shear { state, spacing } => run_shear(sheet, state, spacing, line),
    }
}

// A change prints nothing.
fn no_line(res: Result<(), SheetFault>) -> Result<usize, RecordFault>
    ensures { result ≡ no_line res }
{
    res?;
    Ok(0)
}

fn run_enter(
    sheet: &mut Sheet,
    slot: u8,
    load: u8,
    effect: u8,
    sixteenths: i32,
) -> Result<usize, RecordFault>
    ensures { Silently (Enters (ledger sheet.old) slot (load_type load) (effect_kind effect) sixteenths (ledger sheet.new)) result }
{
    let load = LoadType::try_from(load)?;
    let kind = EffectKind::try_from(effect)?;
    no_line(sheet.enter(slot, load, Effect::from_sixteenths(kind, sixteenths)))
}

fn run_extremes(
    sheet: &Sheet,
    state: u8,
    effect: u8,
    line: &mut [u8; 64],
) -> Result<usize, RecordFault>
    ensures { Delivers (AsksExtremes (ledger sheet.now) state (effect_kind effect) (ledger sheet.now)) line.old result line.new }
{
    let kind = EffectKind::try_from(effect)?;
    let state = LimitState::published(state)?;
    let found = questions::extremes(sheet, &state, kind);
    Ok(write_extremes(line, found))
}

// The state is looked up last, so that a fault of the section is found first.
fn run_bending(
    sheet: &Sheet,
    state: u8,
    slab: Slab,
    line: &mut [u8; 64],
) -> Result<usize, RecordFault>
    ensures { Delivers (TellsBending (ledger sheet.now) state slab (ledger sheet.now)) line.old result line.new }
{
    let deck = Deck::try_new(slab, &[])?;
    let found = questions::resistance(sheet, &deck)?;
    let state = LimitState::published(state)?;
    let verdict = found.verdict(sheet, &state);
    Ok(write_bending(line, &found, verdict))
}

fn run_shear(
    sheet: &Sheet,
    state: u8,
    spacing: u16,
    line: &mut [u8; 64],
) -> Result<usize, RecordFault>
    ensures { Delivers (TellsShear (ledger sheet.now) state (spacing_of spacing) (ledger sheet.now)) line.old result line.new }
{
    let spacing = spacing_of(spacing);
    let force = questions::shear_resistance(sheet, spacing)?;
    let state = LimitState::published(state)?;
    let verdict = questions::shear_verdict(sheet, force, &state);
    Ok(write_shear(line, force, verdict))
}

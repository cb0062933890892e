// Calls and replies in words.
use crate::girder::Piece;
use crate::units::{Inches, kip_feet, kips, pound_inches, whole};
use kinds::Either;
use loads::{Effect, EffectKind, LoadType};
use questions::{Bending, Extremes, Verdict};
use runs::{Answer, Call, CallFault, Reply};
use section::{Axis, Sense};
use sheet::{PlateInput, Role};
use std::fmt;

// A call, to be shown.
#[derive(Clone, Copy)]
pub(crate) struct Asked<'a>(pub(crate) &'a Call<Piece>);

// A reply, to be shown.
#[derive(Clone, Copy)]
pub(crate) struct Told(pub(crate) Reply);

impl fmt::Display for Asked<'_> {
    fn fmt<W: fmt::Write>(&self, f: &mut fmt::Formatter<W>) -> fmt::Result {
        show_call(f, self.0)
    }
}

impl fmt::Display for Told {
    fn fmt<W: fmt::Write>(&self, f: &mut fmt::Formatter<W>) -> fmt::Result {
        match self.0 {
            Ok(Answer::Done) => f.write_str("done"),
            Ok(Answer::Extremes(Extremes { low, high })) => {
                write!(
                    f,
                    "low {low} ({}), high {high} ({})",
                    whole(low),
                    whole(high)
                )
            }
            Ok(Answer::Axis(found)) => show_axis(f, found),
            Ok(Answer::Bending(found)) => show_bending(f, found),
            Err(CallFault::Sheet(fault)) => write!(f, "{fault}, {}", fault.reason),
            Err(CallFault::Question(fault)) => write!(f, "{fault}"),
        }
    }
}

fn show_call<W: fmt::Write>(f: &mut fmt::Formatter<W>, call: &Call<Piece>) -> fmt::Result {
    match call {
        Call::Place { slot, plate } => show_place(f, *slot, *plate),
        Call::Lift { slot } => show_slot(f, "lift", *slot),
        Call::Lower { levels } => show_lower(f, *levels),
        Call::Enter { slot, load, effect } => show_enter(f, *slot, *load, *effect),
        Call::Strike { slot } => show_slot(f, "strike", *slot),
        Call::Extremes { state: _, kind } => show_extremes(f, *kind),
        Call::Axis { part, sense } => show_with(f, axis_name(*sense), piece_name(part)),
        Call::Bending { part, state: _ } => show_with(f, "bending in Strength I", piece_name(part)),
    }
}

fn show_place<W: fmt::Write>(
    f: &mut fmt::Formatter<W>,
    slot: u8,
    plate: PlateInput,
) -> fmt::Result {
    let role = role_name(plate.role);
    let breadth = Inches(plate.breadth);
    let height = Inches(plate.height);
    let top = Inches(plate.top);
    let fy = plate.fy;
    write!(
        f,
        "place in slot {slot} {role} {breadth} by {height} in at {top} in, Fy {fy} psi"
    )
}

fn show_slot<W: fmt::Write>(f: &mut fmt::Formatter<W>, what: &str, slot: u8) -> fmt::Result {
    write!(f, "{what} what stands in slot {slot}")
}

fn show_lower<W: fmt::Write>(f: &mut fmt::Formatter<W>, levels: u16) -> fmt::Result {
    let way = Inches(levels);
    write!(f, "lower by {way} in")
}

fn show_enter<W: fmt::Write>(
    f: &mut fmt::Formatter<W>,
    slot: u8,
    load: LoadType,
    effect: Effect,
) -> fmt::Result {
    let load = load_name(load);
    match effect {
        Effect::Moment(x) => write!(f, "enter in slot {slot} {load} moment {x} kip-ft"),
        Effect::Shear(x) => write!(f, "enter in slot {slot} {load} shear {x} kips"),
    }
}

fn show_extremes<W: fmt::Write>(f: &mut fmt::Formatter<W>, kind: EffectKind) -> fmt::Result {
    f.write_str(match kind {
        EffectKind::Moment => "extremes of the moments in Strength I",
        EffectKind::Shear => "extremes of the shears in Strength I",
    })
}

fn show_with<W: fmt::Write>(f: &mut fmt::Formatter<W>, question: &str, part: &str) -> fmt::Result {
    write!(f, "{question} with the {part}")
}

fn show_axis<W: fmt::Write>(f: &mut fmt::Formatter<W>, found: Axis) -> fmt::Result {
    let level = found.level;
    let moment = found.moment;
    let imbalance = found.imbalance;
    let depth = Inches(level);
    let kip_feet = kip_feet(pound_inches(moment));
    let kips = kips(imbalance);
    write!(
        f,
        "level {level} ({depth} in), moment {moment} ({kip_feet} kip-ft), imbalance {imbalance} ({kips} kips)"
    )
}

fn show_bending<W: fmt::Write>(f: &mut fmt::Formatter<W>, found: Bending) -> fmt::Result {
    let level = found.level;
    let depth = Inches(level);
    let mp = found.mp;
    let mn = found.mn;
    let mp_feet = kip_feet(mp);
    let mn_feet = kip_feet(mn);
    let verdict = verdict_name(found.verdict);
    write!(
        f,
        "level {level} ({depth} in), Mp {mp} ({mp_feet} kip-ft), Mn {mn} ({mn_feet} kip-ft), {verdict}"
    )
}

// The names below stand in functions: `Display` of the library's types can stand only in the library, which spells no role, load type, sense or
// verdict, and a type of our own round each, to be shown in a place or two, would be no plainer.
fn role_name(role: u8) -> &'static str {
    match Role::try_from(role) {
        Ok(Role::TopFlange) => "top flange",
        Ok(Role::Web) => "web",
        Ok(Role::BottomFlange) => "bottom flange",
        Ok(Role::Other) | Err(_) => "plate",
    }
}

fn load_name(load: LoadType) -> &'static str {
    match load {
        LoadType::Dc => "DC",
        LoadType::Dw => "DW",
        LoadType::Ll => "LL",
        LoadType::Ws => "WS",
    }
}

fn axis_name(sense: Sense) -> &'static str {
    match sense {
        Sense::Sagging => "axis in sagging",
        Sense::Hogging => "axis in hogging",
    }
}

fn piece_name(piece: &Piece) -> &'static str {
    match piece {
        Either::First(_) => "deck",
        Either::Second(_) => "cover plate",
    }
}

pub(crate) fn verdict_name(verdict: Verdict) -> &'static str {
    match verdict {
        Verdict::Carries => "carries",
        Verdict::NotCompact => "not compact",
        Verdict::Brittle => "brittle",
        Verdict::TooWeak => "too weak",
    }
}

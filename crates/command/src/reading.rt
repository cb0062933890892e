// Reads one command.
ghost use Rattle.std.specs.Prelude.{◌≡◌};
ghost use Rattle.command.specs.Bytes.{shown, parsed, Splits, taking, place, lift, lower, enter, strike, extremes, bending, shear};

use crate::commands::Command;
use faults::ReadFault;

// The command that the bytes begin with, and the bytes after it; refused with 16 where the first
// byte is no command's, and with 17 where there are too few bytes for it. A pair, here and below, as std's
// `split_first_chunk` has it: it is taken apart at once.
pub fn read(bytes: &[u8]) -> Result<(Command, &[u8]), ReadFault>
    ensures { shown result ≡ parsed bytes.now }
{
    match bytes {
        [0x01, operands @ ..] => read_place(operands),
        [0x02, operands @ ..] => read_lift(operands),
        [0x03, operands @ ..] => read_lower(operands),
        [0x04, operands @ ..] => read_enter(operands),
        [0x05, operands @ ..] => read_strike(operands),
        [0x06, operands @ ..] => read_extremes(operands),
        [0x07, operands @ ..] => read_bending(operands),
        [0x08, operands @ ..] => read_shear(operands),
        [_, ..] => Err(ReadFault::UnknownCommand),
        [] => Err(ReadFault::CutShort),
    }
}

// The operands, N bytes, and the bytes after them.
fn split<const N: usize>(operands: &[u8]) -> Result<(&[u8; N], &[u8]), ReadFault>
    ensures { Splits N operands.now result }
{
    operands.split_first_chunk().ok_or(ReadFault::CutShort)
}

fn read_place(operands: &[u8]) -> Result<(Command, &[u8]), ReadFault>
    ensures { shown result ≡ taking 12 operands.now (place operands.now) }
{
    let (&[slot, role, t1, t0, b1, b0, h1, h0, f3, f2, f1, f0], rest) = split::<12>(operands)?;
    let top = u16::from_be_bytes([t1, t0]);
    let breadth = u16::from_be_bytes([b1, b0]);
    let height = u16::from_be_bytes([h1, h0]);
    let fy = u32::from_be_bytes([f3, f2, f1, f0]);
    Ok((
        Command::Place {
            slot,
            role,
            top,
            breadth,
            height,
            fy,
        },
        rest,
    ))
}

// Twin of `read_strike`: two lines each; one function of both would take the case as a closure, and is no plainer.
fn read_lift(operands: &[u8]) -> Result<(Command, &[u8]), ReadFault>
    ensures { shown result ≡ taking 1 operands.now (lift operands.now) }
{
    let (&[slot], rest) = split::<1>(operands)?;
    Ok((Command::Lift { slot }, rest))
}

fn read_lower(operands: &[u8]) -> Result<(Command, &[u8]), ReadFault>
    ensures { shown result ≡ taking 2 operands.now (lower operands.now) }
{
    let (&[n1, n0], rest) = split::<2>(operands)?;
    let levels = u16::from_be_bytes([n1, n0]);
    Ok((Command::Lower { levels }, rest))
}

fn read_enter(operands: &[u8]) -> Result<(Command, &[u8]), ReadFault>
    ensures { shown result ≡ taking 7 operands.now (enter operands.now) }
{
    let (&[slot, load, effect, s3, s2, s1, s0], rest) = split::<7>(operands)?;
    let sixteenths = i32::from_be_bytes([s3, s2, s1, s0]);
    Ok((
        Command::Enter {
            slot,
            load,
            effect,
            sixteenths,
        },
        rest,
    ))
}

fn read_strike(operands: &[u8]) -> Result<(Command, &[u8]), ReadFault>
    ensures { shown result ≡ taking 1 operands.now (strike operands.now) }
{
    let (&[slot], rest) = split::<1>(operands)?;
    Ok((Command::Strike { slot }, rest))
}

fn read_extremes(operands: &[u8]) -> Result<(Command, &[u8]), ReadFault>
    ensures { shown result ≡ taking 2 operands.now (extremes operands.now) }
{
    let (&[state, effect], rest) = split::<2>(operands)?;
    Ok((Command::Extremes { state, effect }, rest))
}

fn read_bending(operands: &[u8]) -> Result<(Command, &[u8]), ReadFault>
    ensures { shown result ≡ taking 9 operands.now (bending operands.now) }
{
    let (&[state, t1, t0, b1, b0, h1, h0, f1, f0], rest) = split::<9>(operands)?;
    let top = u16::from_be_bytes([t1, t0]);
    let breadth = u16::from_be_bytes([b1, b0]);
    let height = u16::from_be_bytes([h1, h0]);
    let fc = u16::from_be_bytes([f1, f0]);
    Ok((
        Command::Bending {
            state,
            top,
            breadth,
            height,
            fc,
        },
        rest,
    ))
}

fn read_shear(operands: &[u8]) -> Result<(Command, &[u8]), ReadFault>
    ensures { shown result ≡ taking 3 operands.now (shear operands.now) }
{
    let (&[state, d1, d0], rest) = split::<3>(operands)?;
    let spacing = u16::from_be_bytes([d1, d0]);
    Ok((Command::Shear { state, spacing }, rest))
}

// The lines of a step, each with its end. What they return is the line's length, as a step tells it: a part of the line would only be measured again.
ghost use Rattle.std.specs.Prelude.{◌^◌, ◌≤◌};
ghost use Rattle.questions.specs.Bending.{verdict_number};
ghost use Rattle.record.specs.Lines.{extremes_line, bending_line, shear_line, fault_line, Wrote};

use crate::line_writer::LineWriter;
use faults::RecordFault;
use questions::{Extremes, Resistance, Verdict};

// `6 low -120000 high -86400`
pub(crate) fn write_extremes(line: &mut [u8; 64], found: Extremes) -> usize
    ensures { Wrote (extremes_line found.low found.high) line.old result line.new }
{
    let mut writer = LineWriter::new(line);
    writer.put(b"6 low ");
    writer.put_signed(found.low);
    writer.put(b" high ");
    writer.put_signed(found.high);
    writer.put(b"\n");
    writer.len()
}

// `7 level 131 moment 81830493 mn 78271676 verdict 0`
pub(crate) fn write_bending(line: &mut [u8; 64], found: &Resistance, verdict: Verdict) -> usize
    requires mp { found.now.mp ≤ 2 ^ 38 }
    requires mn { found.now.mn ≤ 2 ^ 38 }
    ensures { Wrote (bending_line found.now.level found.now.mp found.now.mn (verdict_number verdict)) line.old result line.new }
{
    let mut writer = LineWriter::new(line);
    writer.put(b"7 level ");
    writer.put_number::<5>(u64::from(found.level));
    writer.put(b" moment ");
    writer.put_number::<12>(found.mp);
    writer.put(b" mn ");
    writer.put_number::<12>(found.mn);
    writer.put(b" verdict ");
    writer.put_verdict(verdict);
    writer.put(b"\n");
    writer.len()
}

// `8 shear 105629600 verdict 0`
pub(crate) fn write_shear(line: &mut [u8; 64], force: u64, verdict: Verdict) -> usize
    ensures { Wrote (shear_line force (verdict_number verdict)) line.old result line.new }
{
    let mut writer = LineWriter::new(line);
    writer.put(b"8 shear ");
    writer.put_number::<20>(force);
    writer.put(b" verdict ");
    writer.put_verdict(verdict);
    writer.put(b"\n");
    writer.len()
}

// `fault at 19 sheet 3`
pub(crate) fn write_fault(line: &mut [u8; 64], place: usize, fault: RecordFault) -> usize
    ensures { Wrote (fault_line place fault) line.old result line.new }
{
    let mut writer = LineWriter::new(line);
    writer.put(b"fault at ");
    writer.put_number::<20>(place as u64); // by `as`: no `From` goes from `usize`
    writer.put(b" ");
    writer.put_layer(fault.layer());
    writer.put(b" ");
    writer.put_number::<20>(u64::from(fault.number()));
    writer.put(b"\n");
    writer.len()
}

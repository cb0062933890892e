// The plates' measures in plain arrays, so that a sum over the slots has no branch. Side by side, and not one array of structs: over that the
// sum takes 1.7 times as long, and straight over the slots 3.5 times.
ghost use Rattle.std.specs.Prelude.{◌≡◌, ◌+◌, ◌-◌, ◌*◌, ◌%◌, ◌^◌, ◌<◌, ◌≤◌, min, map, length, replicate, slice_index, slice_set};
ghost use Rattle.section.specs.Blocks.{block_strip};
ghost use Rattle.section.specs.Strips.{moment_at};

use crate::plate::Plate;
use crate::slot::Slot;

#[derive(Clone, Copy)]
pub struct Measures {
    tops: [u16; 24],
    // 0 for an empty slot
    heights: [u16; 24],
    // breadth × yield, modulo 2^32: no bound is asked of a plate here
    strengths: [u32; 24],
    ghost topped: { length tops ≡ 24 },
    ghost sized: { length heights ≡ 24 },
    ghost strong: { length strengths ≡ 24 },
}

impl Measures {
    // By hand: a struct with ghost fields derives no `Default`.
    pub(crate) fn new() -> Measures
        ensures { result.heights ≡ replicate 24 0 }
    {
        Measures {
            tops: [0; 24],
            heights: [0; 24],
            strengths: [0; 24],
        }
    }

    pub(crate) fn note(&mut self, slot: Slot<24>, plate: &Plate)
        ensures tops { self.new.tops ≡ slice_set self.old.tops slot.index plate.now.top }
        ensures heights { self.new.heights ≡ slice_set self.old.heights slot.index plate.now.height }
        ensures strengths { self.new.strengths ≡ slice_set self.old.strengths slot.index (plate.now.breadth * plate.now.fy % 2 ^ 32) }
    {
        self.tops[slot.index] = plate.top;
        self.heights[slot.index] = plate.height;
        self.strengths[slot.index] = u32::from(plate.breadth).wrapping_mul(plate.fy);
    }

    pub(crate) fn clear(&mut self, slot: Slot<24>)
        ensures tops { self.new.tops ≡ self.old.tops }
        ensures heights { self.new.heights ≡ slice_set self.old.heights slot.index 0 }
        ensures strengths { self.new.strengths ≡ self.old.strengths }
    {
        self.heights[slot.index] = 0;
    }

    // Adds n to every top, those of empty slots too, which stop at the greatest number.
    pub(crate) fn lower(&mut self, n: u16)
        ensures tops { self.new.tops ≡ map (λ t. min (t + n) (2 ^ 16 - 1)) self.old.tops }
        ensures heights { self.new.heights ≡ self.old.heights }
        ensures strengths { self.new.strengths ≡ self.old.strengths }
    {
        for top in self.tops.iter_mut() {
            *top = top.saturating_add(n);
        }
    }

    // The force of a slot's strips above a level. By index: a sum over the slots counts them, and would make a `Slot` of each, which is no plainer.
    pub(crate) fn force_above(&self, slot: usize, level: u16) -> u64
        requires { slot < 24 }
        ensures { result ≡ slice_index self.now.strengths slot * min (level - slice_index self.now.tops slot) (slice_index self.now.heights slot) }
    {
        let strips = level
            .saturating_sub(self.tops[slot])
            .min(self.heights[slot]);
        u64::from(self.strengths[slot]) * u64::from(strips)
    }

    // The moment of a slot's strips about a level: on each side their strength × (far² − near²), by the ways to the strips' farther and nearer end.
    pub(crate) fn moment(&self, slot: usize, level: u16) -> u64
        requires slot { slot < 24 }
        requires inside { 0 < slice_index self.now.heights slot → slice_index self.now.tops slot + slice_index self.now.heights slot ≤ 4096 }
        requires shallow { level ≤ 4096 }
        ensures { let f = block_strip (slice_index self.now.tops slot) (slice_index self.now.heights slot) (slice_index self.now.strengths slot) in result ≡ moment_at 4096 f f level }
    {
        let top = self.tops[slot];
        let foot = top + self.heights[slot];
        let above = squares_between(level.saturating_sub(foot), level.saturating_sub(top));
        let below = squares_between(top.saturating_sub(level), foot.saturating_sub(level));
        u64::from(self.strengths[slot]) * u64::from(above + below)
    }
}

// By squares, where a block has a force to multiply: it fits 32 bits, so that the sum over the slots takes one multiplication of 32 bits by 32 for each.
fn squares_between(near: u16, far: u16) -> u32
    requires { near ≤ far }
    ensures { result ≡ far * far - near * near }
{
    u32::from(far) * u32::from(far) - u32::from(near) * u32::from(near)
}

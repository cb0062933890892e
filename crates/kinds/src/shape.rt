// A rolled shape, by a lent table of breadths, one for each strip from its top down.
ghost use Rattle.std.specs.Prelude.{◌≡◌, ◌+◌, ◌*◌, ◌^◌, ◌≤◌, IfOk, IfErr, length, sum};
ghost use Rattle.faults.specs.declared.part.PartFault.TheVariants.{OutsideLimits};
ghost use Rattle.section.specs.Strips.{no_strips};
ghost use Rattle.kinds.specs.Shapes.{Broad, ShapeFits, Tried, table_strip};
ghost use Rattle.kinds.specs.ShapeLaws.{shape_laws};

use faults::PartFault;
use section::{BROADEST, GREATEST_YIELD, LEAST_YIELD, LOWEST, Part, Resultants, STRONGEST, Sense};

// Its top, yield and breadths go together through calls and clauses; a struct for them would be the shape again.
#[derive(Clone, Copy, Debug, PartialEq, Eq)]
pub struct Shape<'a> {
    top: u16,
    fy: u32,
    breadths: &'a [u16],
    ghost broad: { Broad breadths.now },
    ghost inside: { top + length breadths.now ≤ 4096 },
    ghost weakest: { 30000 ≤ fy },
    ghost light: { sum breadths.now * fy ≤ 2 ^ 36 },
}

// The breadths of a table added up.
fn total(breadths: &[u16]) -> u64
    requires { length breadths.now ≤ 4096 }
    ensures value { result ≡ sum breadths.now }
    ensures small { result ≤ 65535 * length breadths.now }
{
    breadths.iter().map(|&breadth| u64::from(breadth)).sum()
}

impl<'a> Shape<'a> {
    pub fn empty() -> Shape<'a>
        ensures { table_strip result.top result.fy result.breadths.now ≡ no_strips }
    {
        Shape {
            top: 0,
            fy: LEAST_YIELD,
            breadths: &[],
        }
    }

    // Whether a shape may be made of these; refused with 10. Public, and so it stays; `try_new` makes what it has judged.
    pub fn tried(top: u16, fy: u32, breadths: &[u16]) -> Result<(), PartFault>
        ensures { Tried top fy breadths.now result }
    {
        if top > LOWEST || breadths.len() > usize::from(LOWEST - top) {
            return Err(PartFault::OutsideLimits);
        }
        if !(LEAST_YIELD..=GREATEST_YIELD).contains(&fy) {
            return Err(PartFault::OutsideLimits);
        }
        if !breadths
            .iter()
            .all(|breadth| (1..=BROADEST).contains(breadth))
        {
            return Err(PartFault::OutsideLimits);
        }
        if total(breadths) * u64::from(fy) > STRONGEST {
            return Err(PartFault::OutsideLimits);
        }
        Ok(())
    }

    // The shape of the table; refused with 10 where the table is unfit.
    pub fn try_new(top: u16, fy: u32, breadths: &'a [u16]) -> Result<Shape<'a>, PartFault>
        ensures fit { IfOk result (λ s. ShapeFits top fy breadths.now × (table_strip s.top s.fy s.breadths.now ≡ table_strip top fy breadths.now)) }
        ensures unfit { IfErr result (λ f. (f ≡ OutsideLimits) × (ShapeFits top fy breadths.now → ⊥)) }
    {
        Shape::tried(top, fy, breadths)?;
        Ok(Shape { top, fy, breadths })
    }

    // The shape of the table, or the empty one where the table is unfit, for callers who have tried the table; `try_new` tells the refusal. Public, and
    // so it stays.
    pub fn new(top: u16, fy: u32, breadths: &'a [u16]) -> Shape<'a>
        ensures fit { ShapeFits top fy breadths.now → table_strip result.top result.fy result.breadths.now ≡ table_strip top fy breadths.now }
        ensures unfit { (ShapeFits top fy breadths.now → ⊥) → table_strip result.top result.fy result.breadths.now ≡ no_strips }
    {
        Shape::try_new(top, fy, breadths).unwrap_or(Shape::empty())
    }
}

impl Part for Shape<'_> {
    ghost pushes = { λ s. table_strip s.top s.fy s.breadths.now };

    ghost pulls = { λ s. table_strip s.top s.fy s.breadths.now };

    ghost laws = { shape_laws (λ s. s.top) (λ s. s.fy) (λ s. s.breadths.now) (λ s. s.inside) (λ s. s.light) };

    fn depth(&self) -> u16 {
        if self.breadths.is_empty() {
            0
        } else {
            // by `as`: the length is at most 4,096, so nothing is lost, and no `From` narrows
            self.top + self.breadths.len() as u16
        }
    }

    fn resultants(&self, _sense: Sense, level: u16) -> Resultants {
        let level = level.min(LOWEST);
        let mut at = Resultants::default();
        // counted by `enumerate`, and each strip added on its own side: over a `zip` with the levels from the top on the forces take twice the
        // instructions, with one strip's `Resultants` added by `+=` the moment takes 1.7 times as long, and with a block made of each strip all takes
        // three to five and a half times as long
        for (i, &breadth) in self.breadths.iter().enumerate() {
            // by `as`: the table has at most 4,096 breadths
            let strip = self.top + i as u16;
            let force = u64::from(breadth) * u64::from(self.fy);
            if strip < level {
                at.above += force;
                at.moment += force * (2 * u64::from(level - strip) - 1);
            } else {
                at.below += force;
                at.moment += force * (2 * u64::from(strip - level) + 1);
            }
        }
        at
    }
}

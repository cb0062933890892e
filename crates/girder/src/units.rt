// The library's units in an engineer's.
ghost use Rattle.std.specs.Prelude.{◌≡◌, ◌/◌, ◌%◌, pos, int_div};
ghost use Rattle.girder.specs.Fractions.{IsMixed};

use std::fmt;

// A length or a level, in sixteenths of an inch.
#[derive(Clone, Copy)]
pub(crate) struct Inches(pub(crate) u16);

// Whole inches, and the rest as a fraction of an inch in lowest terms: three numbers, since a struct of them would be taken apart at once and is no
// plainer.
#[tactic(auto, using(crate::proofs::Lowest::shifted))]
fn mixed(sixteenths: u16) -> (u16, u16, u16)
    ensures { IsMixed sixteenths result.0 result.1 result.2 }
{
    let rest = sixteenths % 16;
    // as often as 2 divides both the rest and 16
    let shift = rest.trailing_zeros().min(4);
    (sixteenths / 16, rest >> shift, 16 >> shift)
}

impl fmt::Display for Inches {
    fn fmt<W: fmt::Write>(&self, f: &mut fmt::Formatter<W>) -> fmt::Result {
        let (whole, part, of) = mixed(self.0);
        if part == 0 {
            write!(f, "{whole}")
        } else if whole == 0 {
            write!(f, "{part}/{of}")
        } else {
            write!(f, "{whole} {part}/{of}")
        }
    }
}

// A whole number and the thousandths beside it, as kips in so many pounds: two numbers, since a struct of them would be taken apart at once and is no
// plainer.
pub(crate) fn thousandths(number: u64) -> (u64, u64)
    ensures whole { result.0 ≡ number / 1000 }
    ensures rest { result.1 ≡ number % 1000 }
{
    (number / 1000, number % 1000)
}

// Kips in a force of so many units of 1/256 pound, rounded down.
pub(crate) fn kips(force: u64) -> u64
    ensures { result ≡ force / 256000 }
{
    force / 256_000
}

// Kip-feet in so many pound-inches, rounded down.
pub(crate) fn kip_feet(pound_inches: u64) -> u64
    ensures { result ≡ pound_inches / 12000 }
{
    pound_inches / 12_000
}

// Pound-inches in a plastic moment of so many units of 1/256 pound at 1/32 inch, rounded down.
pub(crate) fn pound_inches(moment: u64) -> u64
    ensures { result ≡ moment / 8192 }
{
    moment / 8192
}

// Kips or kip-feet in a factored sum of so many hundredths of a sixteenth, rounded toward 0.
pub(crate) fn whole(sum: i64) -> i64
    ensures { result ≡ int_div sum (pos 1600) }
{
    sum / 1600
}

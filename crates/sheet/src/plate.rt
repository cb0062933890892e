// A steel plate. Lengths are in sixteenths of an inch, levels count down from the top face, and
// the yield strength `fy` is in psi.
ghost use Rattle.std.specs.Prelude.{◌≡◌, ◌+◌};
ghost use Rattle.sheet.specs.Plates as plates;
ghost use Rattle.sheet.specs.Invariants.{within};

use faults::{SheetFault, SheetReason};
use section::{BROADEST, GREATEST_YIELD, LEAST_YIELD, LOWEST};

// The greatest breadth of a web.
const BROADEST_WEB: u16 = 64;

#[derive(Clone, Copy, Debug, PartialEq, Eq)]
pub enum Role {
    TopFlange,
    Web,
    BottomFlange,
    Other,
}

#[derive(Clone, Copy, Debug, PartialEq, Eq)]
pub struct Plate {
    pub role: Role,
    pub top: u16,
    pub breadth: u16,
    pub height: u16,
    pub fy: u32,
}

// A plate as it is handed over: its role by number, and nothing judged yet. A number that is no role's is refused as a measure outside its
// limits is, and after the slot has been judged. A struct of its own: public, and so it
// stays; with a `Plate<u8>` every other use would say `Plate<Role>`, and be no plainer.
#[derive(Clone, Copy, Debug, PartialEq, Eq)]
pub struct PlateInput {
    pub role: u8,
    pub top: u16,
    pub breadth: u16,
    pub height: u16,
    pub fy: u32,
}

impl From<Role> for u8 {
    ghost from_gives = { λ role n. n ≡ plates.role_number role };

    fn from(role: Role) -> u8 {
        role as u8 + 1
    }
}

// Refused with 4 where the number is no role's.
impl TryFrom<u8> for Role {
    type Error = SheetFault;

    ghost try_from_gives = { plates.ReadsRole };

    fn try_from(number: u8) -> Result<Role, SheetFault> {
        match number {
            1 => Ok(Role::TopFlange),
            2 => Ok(Role::Web),
            3 => Ok(Role::BottomFlange),
            4 => Ok(Role::Other),
            _ => Err(SheetFault::new(SheetReason::PlateLimits)),
        }
    }
}

impl Role {
    // Its number, 1 to 4. Public, and so it stays beside `From`.
    pub fn number(self) -> u8
        ensures { result ≡ plates.role_number self }
    {
        u8::from(self)
    }

    // Whether the two may not both stand.
    pub(crate) fn clashes(self, other: Role) -> bool
        ensures { result ≡ plates.clash self other }
    {
        self != Role::Other && self == other
    }
}

impl PlateInput {
    // Whether its role, measures and yield are within their limits. Public, and so it stays.
    pub fn is_lawful(&self) -> bool
        ensures { result ≡ plates.is_lawful self.now }
    {
        Plate::try_from(*self).is_ok()
    }
}

// Refused with 4 where the input is outside its limits.
impl TryFrom<PlateInput> for Plate {
    type Error = SheetFault;

    ghost try_from_gives = { plates.ReadsPlate };

    fn try_from(input: PlateInput) -> Result<Plate, SheetFault> {
        let plate = Plate {
            role: Role::try_from(input.role)?,
            top: input.top,
            breadth: input.breadth,
            height: input.height,
            fy: input.fy,
        };
        if !plate.is_within_limits() {
            return Err(SheetFault::new(SheetReason::PlateLimits));
        }
        Ok(plate)
    }
}

impl Plate {
    // Whether its measures and yield are within their limits.
    fn is_within_limits(&self) -> bool
        ensures { result ≡ within self.now }
    {
        // comparisons and `&` (tried: with ranges and `contains`, or with `&&` between the four tests, the proof did not close)
        let sized = 1 <= self.breadth
            && self.breadth <= BROADEST
            && 1 <= self.height
            && self.height <= LOWEST;
        let yields = LEAST_YIELD <= self.fy && self.fy <= GREATEST_YIELD;
        let slender = self.role != Role::Web || self.breadth <= BROADEST_WEB;
        let above_end = self.foot() <= u32::from(LOWEST);
        sized & yields & slender & above_end
    }

    // The force at which the whole plate yields, breadth × height × yield.
    pub fn force(&self) -> u64
        ensures { result ≡ plates.force self.now }
    {
        u64::from(self.breadth) * u64::from(self.height) * u64::from(self.fy)
    }

    // The level at which it ends.
    pub(crate) fn foot(&self) -> u32
        ensures { result ≡ self.now.top + self.now.height }
    {
        u32::from(self.top) + u32::from(self.height)
    }
}

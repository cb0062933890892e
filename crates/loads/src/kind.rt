// Moments or shears.
ghost use Rattle.std.specs.Prelude.{◌≡◌};
ghost use Rattle.loads.specs.Codes.{effect_kind};
ghost use Rattle.loads.specs.Kinds.{same_kind};

use faults::ReadFault;

#[derive(Clone, Copy, Debug, PartialEq, Eq)]
pub enum EffectKind {
    Moment,
    Shear,
}

impl EffectKind {
    // Whether the two are the same. Public, and so it stays beside `==`, which is derived and has no clause.
    pub fn is(self, other: EffectKind) -> bool
        ensures { result ≡ same_kind self other }
    {
        self == other
    }
}

// The kind that a record names by this code.
impl TryFrom<u8> for EffectKind {
    type Error = ReadFault;

    ghost try_from_gives = { λ code r. r ≡ effect_kind code };

    fn try_from(code: u8) -> Result<EffectKind, ReadFault> {
        match code {
            1 => Ok(EffectKind::Moment),
            2 => Ok(EffectKind::Shear),
            _ => Err(ReadFault::UnknownCode),
        }
    }
}

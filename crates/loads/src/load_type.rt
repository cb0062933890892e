// The four load types.
ghost use Rattle.std.specs.Prelude.{◌≡◌};
ghost use Rattle.loads.specs.Codes.{load_type};
ghost use Rattle.loads.specs.Factors.{index};

use faults::ReadFault;

#[derive(Clone, Copy, Debug, PartialEq, Eq)]
pub enum LoadType {
    // dead load of structural components and attachments
    Dc,
    // dead load of wearing surfaces and utilities
    Dw,
    // vehicular live load
    Ll,
    // wind on the structure
    Ws,
}

impl LoadType {
    // Where the type stands in a limit state's list of four. Public, and so it stays beside `From`.
    pub fn index(self) -> usize
        ensures { result ≡ index self }
    {
        usize::from(self)
    }
}

// The same as a conversion.
impl From<LoadType> for usize {
    ghost from_gives = { λ t n. n ≡ index t };

    fn from(load: LoadType) -> usize {
        load as usize
    }
}

// The type that a record names by this code.
impl TryFrom<u8> for LoadType {
    type Error = ReadFault;

    ghost try_from_gives = { λ code r. r ≡ load_type code };

    fn try_from(code: u8) -> Result<LoadType, ReadFault> {
        match code {
            1 => Ok(LoadType::Dc),
            2 => Ok(LoadType::Dw),
            3 => Ok(LoadType::Ll),
            4 => Ok(LoadType::Ws),
            _ => Err(ReadFault::UnknownCode),
        }
    }
}

// The words of a call, and what they stand for.
use crate::stop::Stop;
use loads::{Effect, EffectKind, LimitState, LoadType};
use questions::Stud;
use section::Sense;
use sheet::PlateInput;
use std::str::{FromStr, SplitWhitespace};

#[derive(Drop)]
pub(crate) struct Words<'a> {
    pub(crate) rest: SplitWhitespace<'a>,
}

// What a text stands for.
pub(crate) fn parsed<T: FromStr>(text: &str) -> Result<T, Stop>
where
    T::Err: Drop,
{
    text.parse().map_err(|_| Stop::Unreadable)
}

impl<'a> Words<'a> {
    pub(crate) fn new(text: &'a str) -> Words<'a> {
        Words {
            rest: text.split_whitespace(),
        }
    }

    pub(crate) fn word(&mut self) -> Result<&'a str, Stop> {
        self.rest.next().ok_or(Stop::Unreadable)
    }

    pub(crate) fn value<T: FromStr>(&mut self) -> Result<T, Stop>
    where
        T::Err: Drop,
    {
        parsed(self.word()?)
    }

    // LOW-HIGH, and below four of them: pairs, as `LimitState::new` takes them
    fn range(&mut self) -> Result<(u16, u16), Stop> {
        let (low, high) = self.word()?.split_once('-').ok_or(Stop::Unreadable)?;
        Ok((parsed(low)?, parsed(high)?))
    }

    fn ranges(&mut self) -> Result<[(u16, u16); 4], Stop> {
        Ok([self.range()?, self.range()?, self.range()?, self.range()?])
    }

    // published NUMBER, or factors and the ranges of DC, DW, LL and WS
    pub(crate) fn state(&mut self) -> Result<LimitState, Stop> {
        match self.word()? {
            "published" => Ok(LimitState::published(self.value()?)?),
            "factors" => Ok(LimitState::new(self.ranges()?)?),
            _ => Err(Stop::Unreadable),
        }
    }

    pub(crate) fn plate(&mut self) -> Result<PlateInput, Stop> {
        Ok(PlateInput {
            role: self.value()?,
            top: self.value()?,
            breadth: self.value()?,
            height: self.value()?,
            fy: self.value()?,
        })
    }

    // This, `kind` and `sense` by hand: `FromStr` of the library's types can stand only in the library, which spells no load type, kind or sense, and a
    // type of our own round each would be no plainer.
    pub(crate) fn load(&mut self) -> Result<LoadType, Stop> {
        match self.word()? {
            "DC" => Ok(LoadType::Dc),
            "DW" => Ok(LoadType::Dw),
            "LL" => Ok(LoadType::Ll),
            "WS" => Ok(LoadType::Ws),
            _ => Err(Stop::Unreadable),
        }
    }

    pub(crate) fn kind(&mut self) -> Result<EffectKind, Stop> {
        match self.word()? {
            "moment" => Ok(EffectKind::Moment),
            "shear" => Ok(EffectKind::Shear),
            _ => Err(Stop::Unreadable),
        }
    }

    pub(crate) fn effect(&mut self) -> Result<Effect, Stop> {
        let kind = self.kind()?;
        let value = self.value()?;
        match kind {
            EffectKind::Moment => Ok(Effect::Moment(value)),
            EffectKind::Shear => Ok(Effect::Shear(value)),
        }
    }

    pub(crate) fn sense(&mut self) -> Result<Sense, Stop> {
        match self.word()? {
            "sagging" => Ok(Sense::Sagging),
            "hogging" => Ok(Sense::Hogging),
            _ => Err(Stop::Unreadable),
        }
    }

    // a stiffener spacing, or none
    pub(crate) fn spacing(&mut self) -> Result<Option<u16>, Stop> {
        match self.word()? {
            "none" => Ok(None),
            word => Ok(Some(parsed(word)?)),
        }
    }

    pub(crate) fn stud(&mut self) -> Result<Stud, Stop> {
        Ok(Stud {
            area: self.value()?,
            fu: self.value()?,
            fc: self.value()?,
            ec: self.value()?,
        })
    }
}

// The sorts of calls.
use std::str::FromStr;
use thiserror::Error;

#[derive(Clone, Copy, Debug, PartialEq, Eq)]
pub(crate) enum Sort {
    Place,
    Lift,
    Lower,
    Enter,
    Strike,
    Extremes,
    Axis,
    Bending,
    Shear,
    Studs,
    Part,
    Resultants,
    Record,
}

// No sort of call has this name.
#[derive(Clone, Copy, Debug, PartialEq, Eq, Error)]
#[error("an unknown call")]
pub(crate) struct UnknownSort;

impl Sort {
    // In the order in which they are shown.
    pub(crate) const ALL: [Sort; 13] = [
        Sort::Place,
        Sort::Lift,
        Sort::Lower,
        Sort::Enter,
        Sort::Strike,
        Sort::Extremes,
        Sort::Axis,
        Sort::Bending,
        Sort::Shear,
        Sort::Studs,
        Sort::Part,
        Sort::Resultants,
        Sort::Record,
    ];

    // A text and no `Display`: it is compared and padded as a text, and is no plainer otherwise.
    pub(crate) fn name(self) -> &'static str {
        match self {
            Sort::Place => "place",
            Sort::Lift => "lift",
            Sort::Lower => "lower",
            Sort::Enter => "enter",
            Sort::Strike => "strike",
            Sort::Extremes => "extremes",
            Sort::Axis => "axis",
            Sort::Bending => "bending",
            Sort::Shear => "shear",
            Sort::Studs => "studs",
            Sort::Part => "part",
            Sort::Resultants => "resultants",
            Sort::Record => "record",
        }
    }
}

impl FromStr for Sort {
    type Err = UnknownSort;

    fn from_str(name: &str) -> Result<Sort, UnknownSort> {
        Sort::ALL
            .into_iter()
            .find(|sort| sort.name() == name)
            .ok_or(UnknownSort)
    }
}

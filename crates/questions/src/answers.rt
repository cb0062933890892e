// Answers to questions.
ghost use Rattle.std.specs.Prelude.{◌≡◌};
ghost use Rattle.questions.specs.Bending.{verdict_number};

#[derive(Clone, Copy, Debug, PartialEq, Eq)]
pub enum Verdict {
    Carries = 0,
    NotCompact,
    Brittle,
    TooWeak,
}

impl Verdict {
    // The published number. Public, and so it stays.
    pub fn number(self) -> u8
        ensures { result ≡ verdict_number self }
    {
        self as u8
    }
}

// The least and the greatest factored sum, in hundredths of a sixteenth.
#[derive(Clone, Copy, Debug, PartialEq, Eq)]
pub struct Extremes {
    pub low: i64,
    pub high: i64,
}

// A section's bending resistance, before loads are looked at.
#[derive(Clone, Copy, Debug, PartialEq, Eq)]
pub struct Resistance {
    // of the plastic neutral axis
    pub level: u16,
    // Mp and Mn in pound-inches
    pub mp: u64,
    pub mn: u64,
    // two findings, each known in any case: no value hangs on them
    pub compact: bool,
    pub ductile: bool,
}

// Holds no `Resistance`: its two findings are judged in the verdict, and `b.found.mn` for `b.mn` would be no plainer.
#[derive(Clone, Copy, Debug, PartialEq, Eq)]
pub struct Bending {
    pub level: u16,
    pub mp: u64,
    pub mn: u64,
    pub verdict: Verdict,
}

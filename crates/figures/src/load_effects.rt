// The extremes of worked load effects.
ghost use Rattle.figures.specs.LoadEffects.{DeadAndLive, Opposed, OneFactorAType};

// DC 1,000, DW 200 and LL 1,500 kip-feet in Strength I.
pub fn dead_and_live()
    ensures { DeadAndLive }
{}

// DC 100 and -160 kip-feet in Strength I.
pub fn opposed()
    ensures extremes { Opposed }
    ensures one_factor { OneFactorAType }
{}

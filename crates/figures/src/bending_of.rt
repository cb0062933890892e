// The bending resistance of the girder with its deck.
ghost use Rattle.figures.specs.Bending.{Depths, Moments, Resists, Carried, NotCarried, AtLimit, PastLimit};

// Mp and Mn, and the greatest factored moment that is carried.
pub fn bending()
    ensures depths { Depths }
    ensures moments { Moments }
    ensures resists { Resists }
    ensures carried { Carried }
    ensures not_carried { NotCarried }
    ensures at_limit { AtLimit }
    ensures past_limit { PastLimit }
{}

// The strongest plate that a new sheet takes.
ghost use Rattle.figures.specs.Plates.{Strongest, TooStrong};

// 4,096 by 167 at yield 100,000 is accepted, 168 is not.
pub fn strongest_plate()
    ensures accepted { Strongest }
    ensures refused { TooStrong }
{}

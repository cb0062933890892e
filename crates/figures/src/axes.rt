// The plastic neutral axes of worked sections.
ghost use Rattle.figures.specs.Axes.{Composite, Cracked, ThinPlate};

// The girder with its deck in sagging.
#[tactic(auto, using(crate::proofs::WorkedAxes::composite))]
pub fn composite()
    ensures { Composite }
{}

// The girder with its deck cracked in hogging.
#[tactic(auto, using(crate::proofs::WorkedAxes::cracked))]
pub fn cracked()
    ensures { Cracked }
{}

// One plate of one strip and an empty shape.
pub fn thin_plate()
    ensures { ThinPlate }
{}

// The shear resistance of the girder's web.
ghost use Rattle.figures.specs.Shear.{Unstiffened, Stiffened, Spacings};

// Without stiffeners and with them, and how far apart they may be.
pub fn shear()
    ensures unstiffened { Unstiffened }
    ensures stiffened { Stiffened }
    ensures spacings { Spacings }
{}

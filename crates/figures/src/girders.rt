// A girder of three plates, and a slab on it.
ghost use Rattle.figures.specs.Girders.{Girder, DeckOfSlab};

// A new sheet takes the top flange, the web and the bottom flange.
pub fn girder()
    ensures { Girder }
{}

// A deck takes the slab alone.
pub fn slab()
    ensures { DeckOfSlab }
{}

// The studs between the girder and its deck.
ghost use Rattle.figures.specs.Studs.{StudForce, Interface, Count};

// One stud's resistance, the force to be carried over, and how many studs carry it.
pub fn studs()
    ensures force { StudForce }
    ensures interface { Interface }
    ensures count { Count }
{}

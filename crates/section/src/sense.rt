// Which way a section bends.
#[derive(Clone, Copy, Debug, PartialEq, Eq)]
pub enum Sense {
    // the strips above a level push, those below pull
    Sagging,
    // the reverse
    Hogging,
}

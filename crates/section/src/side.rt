// What the strips on one side of a level give.
#[derive(Clone, Copy, Debug, PartialEq, Eq)]
pub struct Side {
    pub force: u64,
    // about the level, in force units at half a strip
    pub moment: u64,
}

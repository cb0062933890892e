// The most bytes that a record may have.
pub const LONGEST: usize = 65_536;

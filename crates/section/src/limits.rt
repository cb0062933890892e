// The limits of every part.

// The lowest level; a level past it is read as it.
pub const LOWEST: u16 = 4096;

// The greatest breadth of a plate, a slab or a shape's strip.
pub const BROADEST: u16 = 4096;

// The most that a part's strips push or pull with together: 2^36.
pub const STRONGEST: u64 = 1 << 36;

// The limits of every yield, in psi.
pub const LEAST_YIELD: u32 = 30_000;

pub const GREATEST_YIELD: u32 = 100_000;

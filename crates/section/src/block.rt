// A rectangular block: the same strength in each strip of a run.
ghost use Rattle.std.specs.Prelude.{◌+◌, ◌*◌, ◌^◌, ◌≤◌};

#[derive(Clone, Copy, Debug, PartialEq, Eq)]
pub struct Block {
    pub(crate) top: u16,
    pub(crate) height: u16,
    // the force of each strip
    pub(crate) strength: u64,
    ghost inside: { top + height ≤ 4096 },
    ghost light: { strength * height ≤ 2 ^ 36 },
}

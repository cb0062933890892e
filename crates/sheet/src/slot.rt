// A slot.
ghost use Rattle.std.specs.Prelude.{◌<◌};

// One of N slots.
#[derive(Clone, Copy)]
pub struct Slot<const N: usize> {
    pub(crate) index: usize,
    ghost inside: { index < N },
}

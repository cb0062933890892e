// What a cover plate holds.
ghost use Rattle.std.specs.Prelude.{◌+◌, ◌*◌, ◌^◌, ◌≤◌};

// A steel plate, in sixteenths of an inch and psi.
#[derive(Clone, Copy, Debug, PartialEq, Eq)]
pub struct CoverPlate {
    pub(crate) top: u16,
    pub(crate) breadth: u16,
    pub(crate) height: u16,
    pub(crate) fy: u32,
    ghost narrowest: { 1 ≤ breadth },
    ghost broadest: { breadth ≤ 4096 },
    ghost some: { 1 ≤ height },
    ghost inside: { top + height ≤ 4096 },
    ghost weakest: { 30000 ≤ fy },
    ghost strongest: { fy ≤ 100000 },
    ghost light: { breadth * height * fy ≤ 2 ^ 36 },
}

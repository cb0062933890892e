// The record's code for a stiffener spacing.
ghost use Rattle.std.specs.Prelude.{◌≡◌};
ghost use Rattle.record.specs.Codes.{spacing_of};

// A stiffener spacing, 0 for none. A function: std alone may implement its `From` for its own types, and a type of the crate's around the answer, to
// be taken off at its one use, would be no plainer.
pub(crate) fn spacing_of(code: u16) -> Option<u16>
    ensures { result ≡ spacing_of code }
{
    (code != 0).then_some(code)
}

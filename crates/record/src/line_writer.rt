// Writes a line into a caller's buffer. There is no heap: the memory is the caller's, and how much of it is written stands beside it.
ghost use Rattle.std.specs.Prelude.{◌≡◌, ◌+◌, ◌/◌, ◌%◌, ◌^◌, ◌<◌, ◌≤◌, [], ◌∷◌, length, decimal};
ghost use Rattle.std.specs.Fmt.{signed_decimal};
ghost use Rattle.questions.specs.Bending.{verdict_number};
ghost use Rattle.record.specs.Writing.{Adds};
ghost use Rattle.record.specs.Lines.{layer_name};

use faults::Layer;
use questions::Verdict;

#[derive(Drop)]
pub struct LineWriter<'a> {
    line: &'a mut [u8; 64],
    len: usize,
}

impl<'a> LineWriter<'a> {
    pub(crate) fn new(line: &'a mut [u8; 64]) -> LineWriter<'a>
        ensures same { result.line.ghost_name ≡ line.entry.ghost_name }
        ensures line { result.line.now ≡ line.old }
        ensures len { result.len ≡ 0 }
    {
        LineWriter { line, len: 0 }
    }
}

// By hand and not as a `fmt::Write`: `write!` gives a `Result` at each piece, which the room here rules out, so that each would be unwrapped.
// Each write goes through a slice of the array (tried: on a range of `*self.line` itself the check proves nothing, nor does it know its length).
// Room is asked as a number at each: the texts' longest differ, and a type for each room left would be no plainer. `same` says that the line is still
// the one that was lent: as a field of `Adds`, which speaks of bytes and not of memory, it would be no plainer.
impl LineWriter<'_> {
    pub(crate) fn len(&self) -> usize
        ensures { result ≡ self.now.len }
    {
        self.len
    }

    pub(crate) fn put(&mut self, text: &[u8])
        requires { self.old.len + length text.now ≤ 64 }
        ensures same { self.new.line.ghost_name ≡ self.old.line.ghost_name }
        ensures adds { Adds self.old text.now self.new }
    {
        let at = self.len;
        let end = at + text.len();
        let line = &mut self.line[..];
        line[at..end].copy_from_slice(text);
        self.len = end;
    }

    // The digits of a number, of which there are at most so many.
    pub(crate) fn put_number<const DIGITS: usize>(&mut self, n: u64)
        requires room { self.old.len + DIGITS ≤ 64 }
        requires some { 0 < DIGITS }
        requires small { n < 10 ^ DIGITS }
        ensures same { self.new.line.ghost_name ≡ self.old.line.ghost_name }
        ensures adds { Adds self.old (decimal n) self.new }
        ensures bound { self.new.len ≤ self.old.len + DIGITS }
    {
        self.put_digits(n);
    }

    // The digit of a verdict.
    pub(crate) fn put_verdict(&mut self, verdict: Verdict)
        requires { self.old.len + 1 ≤ 64 }
        ensures same { self.new.line.ghost_name ≡ self.old.line.ghost_name }
        ensures adds { Adds self.old (decimal (verdict_number verdict)) self.new }
        ensures bound { self.new.len ≤ self.old.len + 1 }
    {
        self.put_number::<1>(u64::from(verdict.number()));
    }

    fn put_digits(&mut self, n: u64)
        requires { self.old.len + length (decimal n) ≤ 64 }
        ensures same { self.new.line.ghost_name ≡ self.old.line.ghost_name }
        ensures adds { Adds self.old (decimal n) self.new }
    {
        if n < 10 {
            self.put_digit(n);
        } else if n < 100 {
            self.put_pair(n);
        } else {
            self.put_digits(n / 100);
            self.put_pair(n % 100);
        }
    }

    // Two digits, of which the first may be 0; each is below 10, so that `as` loses nothing.
    fn put_pair(&mut self, pair: u64)
        requires small { pair < 100 }
        requires within { self.old.len + 2 ≤ 64 }
        ensures same { self.new.line.ghost_name ≡ self.old.line.ghost_name }
        ensures adds { Adds self.old ((48 + pair / 10) ∷ ((48 + pair % 10) ∷ [])) self.new }
    {
        self.put(&[b'0' + (pair / 10) as u8, b'0' + (pair % 10) as u8]);
    }

    fn put_digit(&mut self, digit: u64)
        requires small { digit < 10 }
        requires within { self.old.len < 64 }
        ensures same { self.new.line.ghost_name ≡ self.old.line.ghost_name }
        ensures adds { Adds self.old ((48 + digit) ∷ []) self.new }
    {
        self.put(&[b'0' + digit as u8]);
    }

    // The digits of a signed number, with `-` before those of one below 0.
    pub(crate) fn put_signed(&mut self, n: i64)
        requires { self.old.len + 21 ≤ 64 }
        ensures same { self.new.line.ghost_name ≡ self.old.line.ghost_name }
        ensures adds { Adds self.old (signed_decimal n) self.new }
        ensures bound { self.new.len ≤ self.old.len + 21 }
    {
        if n < 0 {
            self.put(b"-");
        }
        self.put_number::<20>(n.unsigned_abs());
    }

    // A layer's name as the record's lines spell it.
    pub(crate) fn put_layer(&mut self, layer: Layer)
        requires { self.old.len + 8 ≤ 64 }
        ensures same { self.new.line.ghost_name ≡ self.old.line.ghost_name }
        ensures adds { Adds self.old (layer_name layer) self.new }
        ensures bound { self.new.len ≤ self.old.len + 8 }
    {
        let name: &[u8] = match layer {
            Layer::Value => b"value",
            Layer::Sheet => b"sheet",
            Layer::Part => b"part",
            Layer::Question => b"question",
            Layer::Record => b"record",
        };
        self.put(name);
    }
}

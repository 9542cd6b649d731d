// Texts stored in a lent slice, one behind the other: fixed bytes, decimal numbers and bit patterns.
#![tactic(auto)]

ghost use Rattle.std.specs.Prelude.{◌≡◌, ◌++◌, ◌+◌, ◌≤◌, ◌<◌, length};
ghost use Rattle.std.specs.Float.{binary64};
ghost use Rattle.std.specs.Float.Ieee.{to_bits};
ghost use Rattle.listing_text.specs.Text.{ascii, digit, digits, places, decimal, pattern};

// The byte of a digit below 16.
fn digit_code(d: usize) -> u8
    requires { d < 16 }
    ensures { result ≡ digit d }
{
    let codes = b"0123456789abcdef";
    codes[d]
}

// The last digits of n in a base, as many as the field has bytes, the lowest stored first.
fn fill_digits(n: u64, base: u64, field: &mut [u8])
    requires { (0 < base) × (base ≤ 16) }
    ensures { field.new ≡ digits n base (length field.old) }
{
    let mut left = n;
    for i in (0..field.len()).rev() {
        field[i] = digit_code((left % base) as usize);
        left /= base;
    }
}

// How many decimal digits n has.
fn places_of(n: u64) -> usize
    ensures { result ≡ places n }
{
    n.max(1).ilog10() as usize + 1
}

// The bit pattern of x. The test comes first, since no operation reads a NaN's own pattern.
fn bits_of(x: f64) -> u64
    ensures { result ≡ to_bits binary64 x }
{
    if x.is_nan() {
        return 0x7ff8_0000_0000_0000;
    }
    f64::to_bits(x)
}

// A lent slice and the place in it where the next text goes.
#[derive(Drop)]
pub struct Cursor<'a> {
    out: &'a mut [u8],
    at: usize,
    ghost within: { at ≤ length out.now },
}

impl<'a> Cursor<'a> {
    ghost use Rattle.listing_text.specs.Stored.{Stored};

    // At the front of the slice.
    pub fn new(out: &'a mut [u8]) -> Cursor<'a>
        ensures same_slice { result.out.ghost_name ≡ out.entry.ghost_name }
        ensures held { result.out.now ≡ out.old }
        ensures front { result.at ≡ 0 }
    {
        Cursor { out, at: 0 }
    }

    // How many bytes have been stored.
    pub fn count(&self) -> usize
        ensures { result ≡ self.now.at }
    {
        self.at
    }

    // A text of fixed bytes.
    pub fn text(&mut self, text: &[u8])
        requires { self.old.at + length text.now ≤ length self.old.out.now }
        ensures { Stored self.old text.now self.new }
    {
        let end = self.at + text.len();
        self.out[self.at..end].copy_from_slice(text);
        self.at = end;
    }

    // The last `count` digits of n in a base.
    fn digits(&mut self, n: u64, base: u64, count: usize)
        requires base_nonzero { (0 < base) × (base ≤ 16) }
        requires count_in_bounds { self.old.at + count ≤ length self.old.out.now }
        ensures { Stored self.old (digits n base count) self.new }
    {
        let end = self.at + count;
        fill_digits(n, base, &mut self.out[self.at..end]);
        self.at = end;
    }

    // A number in decimal.
    #[tactic(auto, using(crate::proofs::Digits::length_digits))]
    pub fn decimal(&mut self, n: usize)
        requires { self.old.at + places n ≤ length self.old.out.now }
        ensures stored { Stored self.old (decimal n) self.new }
        ensures value { self.new.at ≡ self.old.at + places n }
    {
        let number = n as u64;
        self.digits(number, 10, places_of(number));
    }

    // A space and a number in decimal, of at most 20 digits.
    #[tactic(auto, using(crate::proofs::Digits::twenty_at_most))]
    pub fn number(&mut self, n: usize)
        requires { self.old.at + 21 ≤ length self.old.out.now }
        ensures stored { Stored self.old (ascii " " ++ decimal n) self.new }
        ensures upper_bound { self.new.at ≤ self.old.at + 21 }
    {
        self.text(b" ");
        self.decimal(n);
    }

    // A space and the pattern of x.
    #[tactic(auto, using(crate::proofs::Digits::length_digits))]
    pub fn pattern(&mut self, x: f64)
        requires { self.old.at + 17 ≤ length self.old.out.now }
        ensures stored { Stored self.old (ascii " " ++ pattern x) self.new }
        ensures value { self.new.at ≡ self.old.at + 17 }
    {
        self.text(b" ");
        self.digits(bits_of(x), 16, 16);
    }

    // The newline that ends a line.
    pub fn newline(&mut self)
        requires { self.old.at < length self.old.out.now }
        ensures stored { Stored self.old (ascii "\n") self.new }
        ensures value { self.new.at ≡ self.old.at + 1 }
    {
        self.text(b"\n");
    }
}

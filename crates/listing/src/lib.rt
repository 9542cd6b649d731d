// A listing, written into a lent slice: the line of a section, and the whole.
#![tactic(auto)]

ghost use Rattle.std.specs.Prelude.{◌≡◌, ◌∷◌, [], ◌++◌, ◌+◌, ◌≤◌, ◌<◌, length};
ghost use Rattle.listing_text.specs.Text.{pattern, following};
ghost use Rattle.listing_text.specs.Listing.{line_text, lines_text, line_written, AtFront};
ghost use Rattle.listing_text.specs.InnerContracts.{Listable, row_line};
ghost use Rattle.listing_text.specs.Stored.{Stored};
ghost use Rattle.closing_line.specs.Closing.{closing_of};

use closing_line::Closing;
use listing_text::Cursor;

// The bytes that question 24 asks for: a line has at most 3 digits, four fields of 17 and the newline.
const LINE: usize = 72;

// A section's line: its number and the four values that the run left there.
#[derive(Clone, Copy, Debug, PartialEq)]
pub struct Line {
    pub section: usize,
    pub head: f64,
    pub flow: f64,
    pub highest: f64,
    pub lowest: f64,
}

impl Line {
    // What the line has after the number.
    fn put_values(self, out: &mut Cursor<'_>)
        requires { out.old.at + 69 ≤ length out.old.out.now }
        ensures stored { Stored out.old (following (pattern self.head ∷ pattern self.flow
            ∷ pattern self.highest ∷ pattern self.lowest ∷ [])) out.new }
        ensures value { out.new.at ≡ out.old.at + 69 }
    {
        out.pattern(self.head);
        out.pattern(self.flow);
        out.pattern(self.highest);
        out.pattern(self.lowest);
        out.newline();
    }

    // The line, newline included.
    #[tactic(auto, using(listing_text::proofs::Digits::three_at_most))]
    fn put(self, out: &mut Cursor<'_>)
        requires section_bound { self.section < 512 }
        requires at_in_bounds { out.old.at + 72 ≤ length out.old.out.now }
        ensures stored { Stored out.old
            (line_text self.section self.head self.flow self.highest self.lowest) out.new }
        ensures upper_bound { out.new.at ≤ out.old.at + 72 }
    {
        out.decimal(self.section);
        self.put_values(out);
    }

    // Writes the line at the front of `out` and answers how many bytes it takes; 0, with `out` as it
    // was, for question 24's no.
    pub fn write(self, out: &mut [u8]) -> usize
        ensures { AtFront (line_written self.section self.head self.flow self.highest self.lowest
            (length out.old)) out.old result out.new }
    {
        if self.section >= 512 {
            return 0;
        }
        if out.len() < LINE {
            return 0;
        }
        let mut text = Cursor::new(out);
        self.put(&mut text);
        text.count()
    }

    // The line call: the part of `out` that holds the line, newline included; an empty part for
    // question 24's no. It begins where `out` begins. No clause says what `out` ends as: a `Lends`
    // is proved only of a body that hands on a field or a call's result, and std has no call that
    // lends one part of a slice (that of `split_at_mut` is one of two). That the bytes after the
    // part keep what they held is said by the contract of `write`, which this calls, and tested of
    // `part` itself by the program `line_bytes`.
    pub fn part(self, out: &mut [u8]) -> &mut [u8]
        ensures result_value { result.now ≡ line_written self.section self.head self.flow
            self.highest self.lowest (length out.old) }
        ensures ref_ptr_value { result.ref_ptr ≡ out.entry.ref_ptr }
    {
        let n = self.write(out);
        &mut out[..n]
    }
}

// Writes the lines of the sections 0 to count - 1 and a closing line at the front of `out`, and
// answers how many bytes they take. An inner call: the program lends rows and room enough.
pub fn write_listing(
    count: usize,
    closing: Closing,
    heads: &[f64],
    flows: &[f64],
    highest: &[f64],
    lowest: &[f64],
    out: &mut [u8],
) -> usize
    requires { Listable count heads.now flows.now highest.now lowest.now out.old }
    ensures { let line = row_line heads.now flows.now
        highest.now lowest.now in
        AtFront (lines_text line count ++ closing_of closing) out.old result out.new }
{
    let mut text = Cursor::new(out);
    for section in 0..count {
        let line = Line {
            section,
            head: heads[section],
            flow: flows[section],
            highest: highest[section],
            lowest: lowest[section],
        };
        line.put(&mut text);
    }
    closing.put(&mut text);
    text.count()
}

// The closing line of a listing: a word, a number or two, and the newline.
#![tactic(auto)]

ghost use Rattle.std.specs.Prelude.{◌∷◌, [], ◌+◌, ◌≤◌, length};
ghost use Rattle.listing_text.specs.Text.{decimal, printed};
ghost use Rattle.listing_text.specs.Stored.{Stored};
ghost use Rattle.closing_line.specs.Closing.{closing_of};

use listing_text::Cursor;

// What the closing line says: the steps done, the steps and the section of a stop, or the number of
// the question that refused the job, as it is printed.
#[derive(Clone, Copy, Debug, PartialEq, Eq)]
pub enum Closing {
    Done { steps: usize },
    NotFinite { steps: usize, section: usize },
    Parted { steps: usize, section: usize },
    Refused(usize),
}

// A word, a number and the newline.
fn put_word_number(word: &[u8], n: usize, out: &mut Cursor<'_>)
    requires { (length word.now ≤ 9) × (out.old.at + 72 ≤ length out.old.out.now) }
    ensures stored { Stored out.old (printed word.now (decimal n ∷ [])) out.new }
    ensures upper_bound { out.new.at ≤ out.old.at + 72 }
{
    out.text(word);
    out.number(n);
    out.newline();
}

// A word, two numbers and the newline. Not one function over a slice of numbers: each is a few lines.
fn put_word_numbers(word: &[u8], m: usize, n: usize, out: &mut Cursor<'_>)
    requires { (length word.now ≤ 9) × (out.old.at + 72 ≤ length out.old.out.now) }
    ensures stored { Stored out.old (printed word.now (decimal m ∷ decimal n ∷ [])) out.new }
    ensures upper_bound { out.new.at ≤ out.old.at + 72 }
{
    out.text(word);
    out.number(m);
    out.number(n);
    out.newline();
}

impl Closing {
    // The line, newline included.
    #[tactic(auto, unfolding(listing_text::specs::Listing::closing_text))]
    pub fn put(self, out: &mut Cursor<'_>)
        requires { out.old.at + 72 ≤ length out.old.out.now }
        ensures stored { Stored out.old (closing_of self) out.new }
        ensures upper_bound { out.new.at ≤ out.old.at + 72 }
    {
        match self {
            Closing::Done { steps } => put_word_number(b"done", steps, out),
            Closing::NotFinite { steps, section } => put_word_numbers(
                b"notfinite",
                steps,
                section,
                out,
            ),
            Closing::Parted { steps, section } => put_word_numbers(b"parted", steps, section, out),
            Closing::Refused(number) => put_word_number(b"refused", number, out),
        }
    }
}

// The table that starts a root, worked out afresh and written as text. The constant of `whole_root` is not read.
ghost use Rattle.std.specs.Prelude.{[], ◌+◌, ◌*◌, ◌^◌, ◌≤◌, ◌<◌, length};
ghost use Rattle.whole_root.specs.WholeRoot.{IsWholeRoot};
ghost use Rattle.listing_text.specs.Text.{decimal, printed};
ghost use Rattle.listing_text.specs.Listing.{AtFront};
ghost use Rattle.listing_text.specs.Stored.{Stored};
ghost use Rattle.table_afresh.specs.TableText.{table_text};

use listing_text::Cursor;

// The root of n, counted up from a number that is not above it. A `while`, since a test ends it and no range.
fn root_from(t: u64, n: u64) -> u64
    requires { (t * t ≤ n) × (n < 2 ^ 24) }
    ensures { IsWholeRoot n result }
{
    let mut root = t;
    while (root + 1) * (root + 1) <= n {
        root += 1;
    }
    root
}

// A number on a line by itself.
#[tactic(auto, using(crate::proofs::TableLaws::four_at_most))]
fn put_alone(n: usize, out: &mut Cursor<'_>)
    requires { (n < 10000) × (out.old.at + 5 ≤ length out.old.out.now) }
    ensures stored { Stored out.old (printed (decimal n) []) out.new }
    ensures upper_bound { out.new.at ≤ out.old.at + 5 }
{
    out.decimal(n);
    out.newline();
}

// Writes the table's lines at the front of `out` and answers how many bytes they take. Each entry is counted up
// from the one before it.
pub fn write_table(out: &mut [u8]) -> usize
    requires { 768 * 5 ≤ length out.old }
    ensures { AtFront table_text out.old result out.new }
{
    let mut text = Cursor::new(out);
    let mut root: u64 = 0;
    for k in 0..768 {
        root = root_from(root, 16384 * (256 + k));
        put_alone(root as usize, &mut text);
    }
    text.count()
}

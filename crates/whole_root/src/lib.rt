// The root of a whole number: its first binary digits from a table, the others one by one.
#![tactic(auto)]

ghost use Rattle.std.specs.Prelude.{◌≡◌, cond, ◌+◌, ◌*◌, ◌^◌, ◌≤◌, ◌<◌, leb};
ghost use Rattle.whole_root.specs.WholeRoot.{IsWholeRoot};
ghost use Rattle.whole_root.specs.Digits.{LeavesRest, FirstDigits};

pub mod table;

// A whole number's root and what its square leaves.
#[derive(Clone, Copy)]
pub struct Whole {
    pub root: u64,
    pub rest: u64,
}

// 1 where the square of r is at most n, else 0.
fn reaches(r: u64, n: u64) -> u64
    requires { r < 2 ^ 32 }
    ensures { (result ≤ 1) × (result ≡ cond (leb (r * r) n) 1 0) }
{
    u64::from(r * r <= n)
}

// The root of a number of 23 or 24 binary digits. The table has the root of the same number with zeros for its last
// fourteen digits, which is at most four too small. The four comparisons are written out, since they wait for nothing
// but the entry; a loop over them took longer.
fn first_digits(top: u64) -> u64
    requires { (2 ^ 22 ≤ top) × (top < 2 ^ 24) }
    ensures { IsWholeRoot top result }
{
    let t = table::entry((top / 16384) as usize);
    let one = reaches(t + 1, top);
    let two = reaches(t + 2, top);
    let three = reaches(t + 3, top);
    let four = reaches(t + 4, top);
    t + (one + (two + (three + four)))
}

// The digits of a root after the first twelve, one a turn. The root stands in its place, with zeros for the digits to
// come, which count less than `unit`, and is kept twice over; so is what its square leaves, divided by `unit`. What a
// digit takes away is chosen before it is taken, so that no branch is compiled and the doubling does not wait for the
// choice. The loop is a `while`, since what it counts by is halved.
fn later_digits(first: Whole, low: u64) -> Whole
    requires { FirstDigits first.root first.rest low }
    ensures { LeavesRest
        (((first.root * first.root + first.rest) * 2 ^ 30 + low) * 2 ^ 52) result.root result.rest }
{
    let mut twice_rest = first.rest * 0x400_0000_0000 + low * 0x1000;
    let mut twice_root = first.root * 0x400_0000_0000;
    let mut unit: u64 = 0x200_0000_0000;
    while unit > 1 {
        let place = unit / 2;
        let trial = twice_root + place;
        let taken = if trial <= twice_rest { trial * 2 } else { 0 };
        twice_root = if trial <= twice_rest {
            trial + place
        } else {
            twice_root
        };
        twice_rest = twice_rest * 2 - taken;
        unit = place;
    }
    Whole {
        root: twice_root / 2,
        rest: twice_rest / 2,
    }
}

// The root of `m * 2^52`, of 53 binary digits.
pub fn whole_root(m: u64) -> Whole
    requires { (2 ^ 52 ≤ m) × (m < 2 ^ 54) }
    ensures { LeavesRest (m * 2 ^ 52) result.root result.rest }
{
    let top = m / 0x4000_0000;
    let root = first_digits(top);
    let rest = top - root * root;
    later_digits(Whole { root, rest }, m % 0x4000_0000)
}

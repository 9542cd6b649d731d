// The commit of a pipe's inner sections, in place: the rows are overwritten upward, and what a section
// needs of those above it is carried as CP.
#![tactic(auto)]

ghost use Rattle.std.specs.Prelude.{◌≡◌, ℕ, ◌+◌, ◌-◌, ◌<◌, ◌≤◌, length};
ghost use Rattle.section.specs.SectionRows.{Stepped};
ghost use Rattle.inner_sections.specs.InnerSections as inner;

use inner_sections::{CutPipe, TwoCp};

// Overwrites section i + 1 by its CP and the entries of the section below it, and takes its head into
// both envelopes.
fn write_one(
    friction: &[u8],
    s: f64,
    i: usize,
    cp: f64,
    heads: &mut [f64],
    flows: &mut [f64],
    highest: &mut [f64],
    lowest: &mut [f64],
)
    requires cut_to_pipe { (inner.CutToPipe friction.now (length heads.old) (length flows.old))
        × (i + 2 < length heads.old) }
    requires heads_in_bounds { (length heads.old ≤ length highest.old) × (length heads.old ≤ length lowest.old) }
    ensures { Stepped (λ (k : ℕ).
        inner.by_cp (inner.one_pipe friction.now heads.old flows.old) s cp i)
        (i + 1) 1 heads flows highest lowest }
{
    let x = CutPipe::new(friction, s, heads, flows).by_cp(i, cp);
    section::store(i + 1, x, heads, flows, highest, lowest);
}

// Overwrites sections i + 1 and i + 2 by the CP carried to them, takes their heads into both envelopes,
// and hands back the CP of the two after them. What is read is read before the stores, so that a vector
// instruction works on the two sections of one turn.
fn write_two(
    friction: &[u8],
    s: f64,
    i: usize,
    cp: TwoCp,
    heads: &mut [f64],
    flows: &mut [f64],
    highest: &mut [f64],
    lowest: &mut [f64],
) -> TwoCp
    requires cut_to_pipe { (inner.CutToPipe friction.now (length heads.old) (length flows.old))
        × (i + 4 < length heads.old) }
    requires heads_in_bounds { (length heads.old ≤ length highest.old) × (length heads.old ≤ length lowest.old) }
    ensures { (result
        ≡ inner.two_cp_at (inner.one_pipe friction.now heads.old flows.old) s (i + 2))
        × Stepped (inner.two_by_cp
        (inner.one_pipe friction.now heads.old flows.old) s cp i)
        (i + 1) 2 heads flows highest lowest }
{
    let here = i + 1;
    let next = i + 2;
    let after = next + 1;
    let pipe = CutPipe::new(friction, s, heads, flows);
    let x = pipe.by_cp(i, cp.first);
    let y = pipe.by_cp(here, cp.second);
    let above = section::read(next, heads, flows);
    let below = section::read(after, heads, flows);
    section::store_two(here, x, y, heads, flows, highest, lowest);
    TwoCp {
        first: inner_sections::cp_along(friction, s, next, above),
        second: inner_sections::cp_along(friction, s, after, below),
    }
}

// How many inner sections are overwritten, and the CP of the two after them.
#[derive(Clone, Copy)]
struct Carried {
    done: usize,
    cp: TwoCp,
}

// Overwrites inner sections from the first on, two a turn, as long as there is a reach for both CP that
// are carried on: one or two are left.
fn commit_twos(
    friction: &[u8],
    s: f64,
    heads: &mut [f64],
    flows: &mut [f64],
    highest: &mut [f64],
    lowest: &mut [f64],
) -> Carried
    requires cut_to_pipe { (inner.CutToPipe friction.now (length heads.old) (length flows.old))
        × (3 ≤ length heads.old) }
    requires heads_in_bounds { (length heads.old ≤ length highest.old) × (length heads.old ≤ length lowest.old) }
    ensures { (result.done + 3 ≤ length heads.old) × (length heads.old ≤ result.done + 4)
        × (result.cp ≡ inner.two_cp_at
        (inner.one_pipe friction.now heads.old flows.old) s result.done)
        × Stepped (inner.inner_at
        (inner.one_pipe friction.now heads.old flows.old) s)
        1 result.done heads flows highest lowest }
{
    let mut cp = CutPipe::new(friction, s, heads, flows).two_cp(0);
    // A `while`: i is asked for after the turns, and no range tells where it ended.
    let mut i = 0;
    while i + 4 < heads.len() {
        cp = write_two(friction, s, i, cp, heads, flows, highest, lowest);
        i += 2;
    }
    Carried { done: i, cp }
}

// Overwrites the inner sections of one pipe by those after the step, and takes their heads into both
// envelopes.
pub fn commit(
    friction: &[u8],
    s: f64,
    heads: &mut [f64],
    flows: &mut [f64],
    highest: &mut [f64],
    lowest: &mut [f64],
)
    requires cut_to_pipe { inner.CutToPipe friction.now (length heads.old) (length flows.old) }
    requires heads_in_bounds { (length heads.old ≤ length highest.old) × (length heads.old ≤ length lowest.old) }
    ensures { Stepped (inner.inner_at
        (inner.one_pipe friction.now heads.old flows.old) s)
        1 (length heads.old - 2) heads flows highest lowest }
{
    if heads.len() < 3 {
        return;
    }
    let carried = commit_twos(friction, s, heads, flows, highest, lowest);
    let i = carried.done;
    let cp = carried.cp;
    let last = i + 1;
    let end = last + 2;
    write_one(friction, s, i, cp.first, heads, flows, highest, lowest);
    if end == heads.len() {
        return;
    }
    write_one(friction, s, last, cp.second, heads, flows, highest, lowest);
}

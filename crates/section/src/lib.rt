// One section of the lent rows: read, stored with its envelopes, and what a scan and question 22 ask of it; and a row
// cleared.
#![tactic(auto)]

ghost use Rattle.std.specs.Prelude.{◌≡◌, true, ◌&&◌, cond, ℕ, ◌+◌, ◌*◌, ◌<◌, ◌≤◌, length};
ghost use Rattle.std.specs.Float.Ieee.Scale.{finite};
ghost use Rattle.fields.specs.Real.{zero64};
ghost use Rattle.loops.specs.Loops.{all_below};
ghost use Rattle.loops.specs.Fill.{fill};
ghost use Rattle.recurrence.specs.Scan.{acceptable_at};
ghost use Rattle.section.specs.SectionRows as row;
ghost use Rattle.section.specs.Faults as scan;

mod envelopes;

use wave::HeadFlow;

// What a scan of the sections finds: the first section whose head or flow is not finite, or the first whose head is
// below its floor.
#[derive(Clone, Copy, Debug, PartialEq, Eq, Hash)]
pub enum Fault {
    NotFinite(usize),
    Parted(usize),
}

// ---- whole rows

// +0 into the first n numbers of a row.
pub fn clear_row(n: usize, dst: &mut [f64])
    requires { n ≤ length dst.old }
    ensures { dst.new ≡ fill (λ (s : ℕ). zero64) dst.old 0 n }
{
    // Not by `fill`: what refuses a part that begins later would be the part, and not its first entry.
    for at in 0..n {
        dst[at] = 0.0;
    }
}

// ---- one section in the rows

// The head and flow of a section.
pub fn read(at: usize, heads: &[f64], flows: &[f64]) -> HeadFlow
    requires { (at < length heads.now) × (at < length flows.now) }
    ensures { result ≡ row.head_flow_in heads.now flows.now at }
{
    HeadFlow {
        head: heads[at],
        flow: flows[at],
    }
}

// Stores the head and flow of a section after a step, and takes the head into both envelopes.
pub fn store(
    at: usize,
    x: HeadFlow,
    heads: &mut [f64],
    flows: &mut [f64],
    highest: &mut [f64],
    lowest: &mut [f64],
)
    requires { (at < length heads.old) × (at < length flows.old) × (at < length highest.old)
        × (at < length lowest.old) }
    ensures { row.Stepped (λ (k : ℕ). x) at 1 heads flows highest lowest }
{
    heads[at] = x.head;
    flows[at] = x.flow;
    highest[at] = envelopes::greater(highest[at], x.head);
    lowest[at] = envelopes::lesser(lowest[at], x.head);
}

// Stores two sections, one after the other. All is read before the stores, so that a vector instruction works on both.
pub fn store_two(
    at: usize,
    x: HeadFlow,
    y: HeadFlow,
    heads: &mut [f64],
    flows: &mut [f64],
    highest: &mut [f64],
    lowest: &mut [f64],
)
    requires { (at + 1 < length heads.old) × (at + 1 < length flows.old) × (at + 1 < length highest.old)
        × (at + 1 < length lowest.old) }
    ensures { row.Stepped (row.two_of x y) at 2 heads flows highest lowest }
{
    let next = at + 1;
    let high = highest[at];
    let high_next = highest[next];
    let low = lowest[at];
    let low_next = lowest[next];
    heads[at] = x.head;
    heads[next] = y.head;
    flows[at] = x.flow;
    flows[next] = y.flow;
    highest[at] = envelopes::greater(high, x.head);
    highest[next] = envelopes::greater(high_next, y.head);
    lowest[at] = envelopes::lesser(low, x.head);
    lowest[next] = envelopes::lesser(low_next, y.head);
}

// ---- the scan of one section

// The floor head of section s, from the bytes of table 4 or of a pipe's part of it.
pub fn floor_at(initial: &[u8], s: usize) -> f64
    requires { (s * 24 + 24 ≤ length initial.now) × (finite (scan.floor_in initial.now s) ≡ true) }
    ensures { result ≡ scan.floor_in initial.now s }
{
    fields::f64_at(initial, s * 24 + 16)
}

// Whether two numbers are finite, without a branch: x - x is +0 where x is finite, else a NaN, which
// equals nothing.
pub fn both_finite(x: f64, y: f64) -> bool
    ensures { result ≡ finite x && finite y }
{
    x - x == y - y
}

// 1 for a section with a fault, else 0, without a branch.
pub fn unsound(head: f64, flow: f64, floor: f64) -> u64
    ensures { (result ≤ 1) × (result ≡ scan.counted floor record { head = head; flow = flow }) }
{
    let sound = both_finite(head, flow) & !(head < floor);
    u64::from(!sound)
}

// The fault of section s, by its head, flow and floor: 40 before 41.
pub fn fault_of(head: f64, flow: f64, floor: f64, s: usize) -> Result<(), Fault>
    ensures { scan.found_fault result ≡ scan.fault_with floor s record { head = head; flow = flow } }
{
    let finite = both_finite(head, flow);
    if !finite {
        return Err(Fault::NotFinite(s));
    }
    if head < floor {
        return Err(Fault::Parted(s));
    }
    Ok(())
}

// ---- question 22

// 1 for a section that is not acceptable, by what it holds and its floor, else 0, without a branch.
fn unacceptable(head: f64, flow: f64, highest: f64, lowest: f64, floor: f64) -> u64
    ensures { (result ≤ 1) × (result ≡ cond (acceptable_at floor
        record { head = head; flow = flow; highest = highest; lowest = lowest }) 0 1) }
{
    let sound = both_finite(head, flow) & both_finite(highest, lowest) & !(head < floor);
    u64::from(!sound)
}

// Question 22 over the first n sections: those that are not acceptable are counted, so that the loop has no branch.
pub fn acceptable(
    initial: &[u8],
    n: usize,
    heads: &[f64],
    flows: &[f64],
    highest: &[f64],
    lowest: &[f64],
) -> bool
    requires covered { scan.Covered initial.now n heads.now flows.now }
    requires n_in_bounds { (n ≤ length highest.now) × (n ≤ length lowest.now) }
    ensures { result ≡ all_below (scan.acceptable_in initial.now
        heads.now flows.now highest.now lowest.now) n }
{
    let mut bad: u64 = 0;
    for s in 0..n {
        bad += unacceptable(
            heads[s],
            flows[s],
            highest[s],
            lowest[s],
            floor_at(initial, s),
        );
    }
    bad == 0
}

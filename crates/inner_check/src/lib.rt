// The check of a pipe's inner sections before a step: it works them out and only reads.
#![tactic(auto)]

ghost use Rattle.std.specs.Prelude.{◌≡◌, true, ◌&&◌, cond, ◌+◌, ◌-◌, ◌*◌, ◌<◌, ◌≤◌, eqb, length};
ghost use Rattle.std.specs.Float.Ieee.{lt};
ghost use Rattle.std.specs.Float.Ieee.Scale.{finite};
ghost use Rattle.fields.specs.Real.{◌⊠◌};
ghost use Rattle.loops.specs.Loops.{all_below};
ghost use Rattle.section.specs.Faults.{floor_in, counted};
ghost use Rattle.inner_sections.specs.CutPipes.{along, section_count};
ghost use Rattle.inner_sections.specs.InnerSections as inner;

use inner_sections::CutPipe;
use wave::HeadFlow;

// A great number, 2 to the power 1000: a head no greater than that is finite.
const GREAT: f64 = 1.0715086071862673e301;

// Section i + 1 after the step.
pub fn inner_at(pipe: &CutPipe<'_>, i: usize) -> HeadFlow
    requires { i + 2 < section_count pipe.now }
    ensures { result ≡ inner.inner_at (along pipe.now) pipe.now.s i }
{
    pipe.by_cp(i, pipe.cp_at(i))
}

// 1 where d, CP - CM of section i + 1, is above its floor times w and below the limit, else 0.
fn clear_one(floors: &[u8], w: f64, limit: f64, i: usize, d: f64) -> u64
    requires { ((i + 1) * 24 + 24 ≤ length floors.now) × (finite (floor_in floors.now (i + 1)) ≡ true) }
    ensures { (result ≤ 1)
        × (result ≡ cond (lt (floor_in floors.now (i + 1) ⊠ w) d && lt d limit) 1 0) }
{
    let lowest = section::floor_at(floors, i + 1) * w;
    u64::from((lowest < d) & (d < limit))
}

// A pipe before a step with the floors of its sections, its own part of table 4.
#[derive(Clone, Copy)]
pub struct FlooredPipe<'a> {
    pub cut: CutPipe<'a>,
    pub floors: &'a [u8],
    pub ghost floored: { inner.Floored floors.now (section_count cut) },
}

impl FlooredPipe<'_> {
    // 1 where section i + 1, worked out from its CP, has a fault, else 0.
    fn fault_one(&self, i: usize, cp: f64) -> u64
        requires { i + 2 < section_count self.now.cut }
        ensures { (result ≤ 1) × (result ≡ counted (floor_in self.now.floors.now (i + 1))
            (inner.by_cp (along self.now.cut) self.now.cut.s cp i)) }
    {
        let x = self.cut.by_cp(i, cp);
        section::unsound(x.head, x.flow, section::floor_at(self.floors, i + 1))
    }

    // ---- without a division

    // True only where no inner section has a fault. A head (CP - CM)/(S + S) is not divided out: CP - CM is
    // held to the floor times S + S, and to a limit that leaves the head finite. A flow is finite where a sum
    // that it is added to is. Only the last one or two sections are worked out.
    fn quick(&self) -> bool
        requires { 3 ≤ section_count self.now.cut }
        ensures { result ≡ true → all_below (inner.sound_inner self.now.floors.now
            (along self.now.cut) self.now.cut.s)
            (section_count self.now.cut - 2) ≡ true }
    {
        let s = self.cut.s;
        let w = s + s;
        let usual = (0.0 < w) & (w < GREAT);
        if !usual {
            return false;
        }
        let limit = GREAT * w;
        let mut cp = self.cut.two_cp(0);
        let mut odd: u64 = 0;
        let mut even: u64 = 0;
        let mut odd_sum = 0.0;
        let mut even_sum = 0.0;
        // A `while`: i is asked for after the turns, and no range tells where it ended.
        let mut i = 0;
        while i + 4 < self.cut.section_count() {
            let cm1 = self.cut.cm_at(i);
            let cm2 = self.cut.cm_at(i + 1);
            odd = odd + clear_one(self.floors, w, limit, i, cp.first - cm1);
            even = even + clear_one(self.floors, w, limit, i + 1, cp.second - cm2);
            odd_sum = odd_sum + (cp.first + cm1);
            even_sum = even_sum + (cp.second + cm2);
            cp = self.cut.two_cp(i + 2);
            i += 2;
        }
        let finite = odd_sum - odd_sum == even_sum - even_sum;
        if !finite | (odd + even != i as u64) {
            return false;
        }
        let last = self.fault_one(i, cp.first);
        if i + 3 == self.cut.section_count() {
            return last == 0;
        }
        last + self.fault_one(i + 1, cp.second) == 0
    }

    // ---- the faults counted

    // 0 exactly where no inner section has a fault after the step: they are worked out, two a turn, and the
    // faults counted, so that the loop has no branch.
    fn exact_faults(&self) -> u64
        requires { 3 ≤ section_count self.now.cut }
        ensures { (result ≤ section_count self.now.cut)
            × (eqb result 0 ≡ all_below (inner.sound_inner self.now.floors.now
            (along self.now.cut) self.now.cut.s)
            (section_count self.now.cut - 2)) }
    {
        let mut cp = self.cut.two_cp(0);
        let mut odd: u64 = 0;
        let mut even: u64 = 0;
        // A `while`, as above.
        let mut i = 0;
        while i + 4 < self.cut.section_count() {
            odd = odd + self.fault_one(i, cp.first);
            even = even + self.fault_one(i + 1, cp.second);
            cp = self.cut.two_cp(i + 2);
            i += 2;
        }
        let bad = odd + even + self.fault_one(i, cp.first);
        if i + 3 == self.cut.section_count() {
            return bad;
        }
        bad + self.fault_one(i + 1, cp.second)
    }

    // 0 exactly where no inner section has a fault after the step. Where the quick look is not sure, the exact
    // count decides.
    pub fn faults(&self) -> u64
        ensures { (result ≤ section_count self.now.cut)
            × (eqb result 0 ≡ all_below (inner.sound_inner self.now.floors.now
            (along self.now.cut) self.now.cut.s)
            (section_count self.now.cut - 2)) }
    {
        if self.cut.section_count() < 3 {
            return 0;
        }
        if self.quick() {
            return 0;
        }
        self.exact_faults()
    }
}

// The inner sections of a pipe, from rows cut to it. CP is a section's characteristic from above, CM that from below.
#![tactic(auto)]

ghost use Rattle.std.specs.Prelude.{◌≡◌, true, ◌+◌, ◌*◌, ◌<◌, ◌≤◌, length};
ghost use Rattle.std.specs.Float.Ieee.Scale.{finite};
ghost use Rattle.wave.specs.Wave.{from_above};
ghost use Rattle.job.specs.Format.{r_in};
ghost use Rattle.inner_sections.specs.InnerSections as pipe;

use wave::HeadFlow;

// R of reach i of a pipe, from the bytes of table 3.
fn friction_at(friction: &[u8], i: usize) -> f64
    requires { (i * 8 + 8 ≤ length friction.now) × (finite (r_in friction.now i) ≡ true) }
    ensures { result ≡ r_in friction.now i }
{
    fields::f64_at(friction, i * 8)
}

// CP along reach i, from what the section above it held.
pub fn cp_along(friction: &[u8], s: f64, i: usize, above: HeadFlow) -> f64
    requires { (i * 8 + 8 ≤ length friction.now) × (finite (r_in friction.now i) ≡ true) }
    ensures { result ≡ from_above s (r_in friction.now i) above.head above.flow }
{
    wave::from_above(s, friction_at(friction, i), above.head, above.flow)
}

// CP of two sections, one after the other.
#[derive(Clone, Copy)]
pub struct TwoCp {
    pub first: f64,
    pub second: f64,
}

// A pipe before a step: its own part of table 3, S, and the rows of heads and flows cut to it.
#[derive(Clone, Copy)]
pub struct CutPipe<'a> {
    friction: &'a [u8],
    pub s: f64,
    heads: &'a [f64],
    flows: &'a [f64],
    pub ghost cut: { pipe.CutToPipe friction.now (length heads.now) (length flows.now) },
}

impl<'a> CutPipe<'a> {
    ghost use Rattle.inner_sections.specs.CutPipes.{along, section_count};

    // The pipe of these rows.
    pub fn new(friction: &'a [u8], s: f64, heads: &'a [f64], flows: &'a [f64]) -> CutPipe<'a>
        requires { pipe.CutToPipe friction.now (length heads.now) (length flows.now) }
        ensures along { along result ≡ pipe.one_pipe friction.now heads.now flows.now }
        ensures s { result.s ≡ s }
        ensures count { section_count result ≡ length heads.now }
    {
        CutPipe {
            friction,
            s,
            heads,
            flows,
        }
    }

    // How many sections it has.
    pub fn section_count(&self) -> usize
        ensures { result ≡ section_count self.now }
    {
        self.heads.len()
    }

    // CP of section i + 1.
    pub fn cp_at(&self, i: usize) -> f64
        requires { i + 1 < section_count self.now }
        ensures { result ≡ pipe.cp_at (along self.now) self.now.s i }
    {
        cp_along(
            self.friction,
            self.s,
            i,
            section::read(i, self.heads, self.flows),
        )
    }

    // CM of section i + 1.
    pub fn cm_at(&self, i: usize) -> f64
        requires { i + 2 < section_count self.now }
        ensures { result ≡ pipe.cm_at (along self.now) self.now.s i }
    {
        let below = section::read(i + 2, self.heads, self.flows);
        wave::from_below(
            self.s,
            friction_at(self.friction, i + 1),
            below.head,
            below.flow,
        )
    }

    // Section i + 1 after the step, from its CP.
    pub fn by_cp(&self, i: usize, cp: f64) -> HeadFlow
        requires { i + 2 < section_count self.now }
        ensures { result ≡ pipe.by_cp (along self.now) self.now.s cp i }
    {
        wave::inner(self.s, cp, self.cm_at(i))
    }

    // CP of sections i + 1 and i + 2.
    pub fn two_cp(&self, i: usize) -> TwoCp
        requires { i + 2 < section_count self.now }
        ensures { result ≡ pipe.two_cp_at (along self.now) self.now.s i }
    {
        TwoCp {
            first: self.cp_at(i),
            second: self.cp_at(i + 1),
        }
    }
}

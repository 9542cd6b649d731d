// The table of pipes.
ghost use Rattle.std.specs.Prelude.{◌≡◌, true, ◌<◌, ◌≤◌, length};
ghost use Rattle.std.specs.Float.Ieee.Scale.{finite};
ghost use Rattle.job.specs.Job.{sections_of};
ghost use Rattle.job.specs.Format.{pipe_count, pipe_in, pipes_in, reaches_of};

use super::walk::Walk;

// The start node of pipe p.
pub fn start(pipes: &[u8], p: usize) -> usize
    requires { p < pipe_count pipes.now }
    ensures { (result ≡ (pipe_in pipes.now p).start) × (result < 256) }
{
    usize::from(pipes[p * 12])
}

// The finish node of pipe p.
pub fn finish(pipes: &[u8], p: usize) -> usize
    requires { p < pipe_count pipes.now }
    ensures { (result ≡ (pipe_in pipes.now p).finish) × (result < 256) }
{
    usize::from(pipes[p * 12 + 1])
}

// The number of reaches of pipe p.
pub fn reaches(pipes: &[u8], p: usize) -> usize
    requires { p < pipe_count pipes.now }
    ensures { (result ≡ (pipe_in pipes.now p).reaches) × (result < 65536) }
{
    fields::u16_at(pipes, p * 12 + 2)
}

// S of pipe p.
pub fn s_of(pipes: &[u8], p: usize) -> f64
    requires { (p < pipe_count pipes.now) × (finite (pipe_in pipes.now p).S ≡ true) }
    ensures { result ≡ (pipe_in pipes.now p).S }
{
    fields::f64_at(pipes, p * 12 + 4)
}

// A walk past every pipe: it has come to the section count and to the number of reaches in all.
pub fn ends(pipes: &[u8]) -> Walk
    requires { length pipes.now ≤ 32768 }
    ensures { (result.section ≡ sections_of (pipes_in pipes.now))
        × (result.reach ≡ reaches_of (pipes_in pipes.now)) × (result.reach ≤ result.section) × (result.section < 268435456) }
{
    let count = pipes.len() / 12;
    let mut at = Walk::begun();
    for p in 0..count {
        at = at.past(reaches(pipes, p));
    }
    at
}

// The section count.
pub fn section_count(pipes: &[u8]) -> usize
    requires { length pipes.now ≤ 32768 }
    ensures { (result ≡ sections_of (pipes_in pipes.now)) × (result < 268435456) }
{
    let at = ends(pipes);
    at.section
}

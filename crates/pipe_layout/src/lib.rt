// Each pipe where it is laid, as a walk over the pipes comes to it.
#![tactic(auto)]

ghost use Rattle.std.specs.Prelude.{◌≡◌, ◌-◌, ◌<◌, ◌≤◌};
ghost use Rattle.std.specs.Iterator.{at_most};
ghost use Rattle.job.specs.Format.{pipe_table, pipe_count};
ghost use Rattle.job.specs.Questions.{Accepted};
ghost use Rattle.job.specs.Walk.{begun};
ghost use Rattle.pipe_layout.specs.Layout.{laid_of, LaidAt, Walked};
ghost use Rattle.pipe_layout.specs.EachPipe.{UnderWay, Turn, Along};

use job::walk::Walk;

// A pipe with its number, and with those of its first section and of its first reach.
#[derive(Clone, Copy)]
pub struct Laid {
    pub number: usize,
    pub start: usize,
    pub finish: usize,
    pub reaches: usize,
    pub s: f64,
    pub first_section: usize,
    pub first_reach: usize,
}

// The number of pipes.
pub fn pipe_count(job: &[u8]) -> usize
    requires { Accepted job.now }
    ensures { (result ≡ pipe_count (pipe_table job.now)) × (result ≤ 32) }
{
    job::tables::pipes(job).len() / 12
}

// The pipe that a walk stands at, with its number.
fn numbered_at(job: &[u8], at: Walk) -> Laid
    requires { (Accepted job.now) × (at.pipe < pipe_count (pipe_table job.now)) × (Walked job.now at) }
    ensures { (LaidAt job.now at.pipe (laid_of result)) × (result.number ≡ at.pipe) }
{
    let pipes = job::tables::pipes(job);
    let p = at.pipe;
    Laid {
        number: p,
        start: job::pipes::start(pipes, p),
        finish: job::pipes::finish(pipes, p),
        reaches: job::pipes::reaches(pipes, p),
        s: job::pipes::s_of(pipes, p),
        first_section: at.section,
        first_reach: at.reach,
    }
}

// The pipes of a job from where a walk has come on, each as it is laid.
#[derive(Drop)]
pub struct Pipes<'a> {
    pub job: &'a [u8],
    pub count: usize,
    pub at: Walk,
}

// All pipes of a job.
pub fn each_pipe(job: &[u8]) -> Pipes<'_>
    requires { Accepted job.now }
    ensures { (Along job.now result.job.now result.count) × (result.at ≡ begun) }
{
    Pipes {
        job,
        count: pipe_count(job),
        at: Walk::begun(),
    }
}

impl<'a> Iterator for Pipes<'a> {
    type Item = Laid;

    ghost can_next = { UnderWay };

    ghost next_gives = { Turn };

    ghost remaining = { λ s. at_most (s.count - s.at.pipe) };

    fn next(&mut self) -> Option<Laid> {
        if self.at.pipe == self.count {
            return None;
        }
        let l = numbered_at(self.job, self.at);
        self.at = self.at.past(l.reaches);
        Some(l)
    }
}

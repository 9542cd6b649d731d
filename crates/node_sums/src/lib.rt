// K at a pipe's ends, and the sums of the nodes before any K.
#![tactic(auto)]

ghost use Rattle.std.specs.Prelude.{◌≡◌, ◌<◌};
ghost use Rattle.job.specs.Job.{friction_at};
ghost use Rattle.job.specs.Format.{job_of, reaches_of};
ghost use Rattle.job.specs.Questions.{Accepted};
ghost use Rattle.recurrence.specs.Step.{k_at_start, k_at_finish};
ghost use Rattle.pipe_layout.specs.Layout.{laid_of, LaidPipe};
ghost use Rattle.node_sums.specs.FromRows.{along_rows, Lent, constant_sums};

use pipe_layout::Laid;
use wave::Sums;

// R of a reach.
fn friction_at(job: &[u8], r: usize) -> f64
    requires { (Accepted job.now) × (r < reaches_of (job_of job.now).pipes) }
    ensures { result ≡ friction_at (job_of job.now) r }
{
    job::values::r_at(job::tables::friction(job), r)
}

// K at a pipe's start, from its first reach and its section 1.
pub fn k_at_start(job: &[u8], l: Laid, heads: &[f64], flows: &[f64]) -> f64
    requires { (Lent job.now heads.now flows.now) × (LaidPipe job.now (laid_of l)) }
    ensures { result
        ≡ k_at_start (along_rows job.now heads.now flows.now) (laid_of l) }
{
    let at = l.first_section + 1;
    wave::start_k(l.s, friction_at(job, l.first_reach), heads[at], flows[at])
}

// K at a pipe's finish, from its last reach and the section above its last.
pub fn k_at_finish(job: &[u8], l: Laid, heads: &[f64], flows: &[f64]) -> f64
    requires { (Lent job.now heads.now flows.now) × (LaidPipe job.now (laid_of l)) }
    ensures { result
        ≡ k_at_finish (along_rows job.now heads.now flows.now) (laid_of l) }
{
    let i = l.reaches - 1;
    let at = l.first_section + i;
    let reach = l.first_reach + i;
    wave::finish_k(l.s, friction_at(job, reach), heads[at], flows[at])
}

// The sums of the nodes before any K: T of each node, and +0 for B.
pub fn constant_sums(job: &[u8]) -> [Sums; 32]
    requires { Accepted job.now }
    ensures { result ≡ constant_sums job.now }
{
    let none = Sums::none();
    let mut sums = [none; 32];
    for l in pipe_layout::each_pipe(job) {
        let start = l.start;
        let finish = l.finish;
        sums[start] = sums[start].with_s(l.s);
        sums[finish] = sums[finish].with_s(l.s);
    }
    sums
}

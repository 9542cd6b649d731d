// The commit of a step, in place, pipe by pipe: the inner sections upward, then both ends out of the spare.
#![tactic(auto)]

ghost use Rattle.std.specs.Prelude.{ℕ, ◌+◌, ◌-◌, ◌*◌, ◌<◌, ◌≤◌, length};
ghost use Rattle.wave.specs.declared.Node.{Node};
ghost use Rattle.job.specs.Job.{sections};
ghost use Rattle.job.specs.Format.{job_of, pipe_table, pipe_count};
ghost use Rattle.recurrence.specs.Step.{between};
ghost use Rattle.section.specs.SectionRows.{Stepped};
ghost use Rattle.pipe_layout.specs.Layout.{laid_of, LaidPipe};
ghost use Rattle.node_sums.specs.FromRows.{along_rows, Lent, new_section};
ghost use Rattle.spare_ends.specs.Spare.{end_in, EndsIn};
ghost use Rattle.step_check.specs.BySpare.{new_by_spare};

use pipe_layout::Laid;

// Overwrites a pipe's inner sections.
fn commit_inner(
    job: &[u8],
    l: Laid,
    heads: &mut [f64],
    flows: &mut [f64],
    highest: &mut [f64],
    lowest: &mut [f64],
)
    requires lent { (Lent job.now heads.old flows.old) × (LaidPipe job.now (laid_of l)) }
    requires job_in_bounds { (sections (job_of job.now) ≤ length highest.old)
        × (sections (job_of job.now) ≤ length lowest.old) }
    ensures { Stepped (between (along_rows job.now heads.old flows.old)
        (laid_of l)) ((laid_of l).first_section + 1) (l.reaches - 1) heads flows highest lowest }
{
    let friction = job::tables::friction(job);
    let a = l.first_reach * 8;
    let b = a + l.reaches * 8;
    let first = l.first_section;
    let end = first + l.reaches + 1;
    inner_commit::commit(
        &friction[a..b],
        l.s,
        &mut heads[first..end],
        &mut flows[first..end],
        &mut highest[first..end],
        &mut lowest[first..end],
    );
}

// Overwrites section s, the end of a pipe, by the head and flow that stand in the spare from `at` on.
fn commit_end(
    s: usize,
    at: usize,
    spare: &[f64],
    heads: &mut [f64],
    flows: &mut [f64],
    highest: &mut [f64],
    lowest: &mut [f64],
)
    requires { (s < length heads.old) × (s < length flows.old) × (s < length highest.old)
        × (s < length lowest.old) × (at + 1 < length spare.now) }
    ensures { Stepped (λ (k : ℕ). end_in spare.now at) s 1 heads flows highest lowest }
{
    let x = spare_ends::end_at(spare, at);
    section::store(s, x, heads, flows, highest, lowest);
}

// Overwrites the sections of pipe p, which is l: the old ends serve the inner sections, so they come last.
fn commit_pipe(
    job: &[u8],
    l: Laid,
    p: usize,
    spare: &[f64],
    heads: &mut [f64],
    flows: &mut [f64],
    highest: &mut [f64],
    lowest: &mut [f64],
)
    requires lent { (Lent job.now heads.old flows.old) × (LaidPipe job.now (laid_of l))
        × (p * 4 + 4 ≤ length spare.now) }
    requires job_in_bounds { (sections (job_of job.now) ≤ length highest.old)
        × (sections (job_of job.now) ≤ length lowest.old) }
    ensures { Stepped (new_by_spare job.now (laid_of l) spare.now (p * 4)
        heads.old flows.old) (laid_of l).first_section (l.reaches + 1)
        heads flows highest lowest }
{
    let first = l.first_section;
    let last = first + l.reaches;
    let at = p * 4;
    commit_inner(job, l, heads, flows, highest, lowest);
    commit_end(first, at, spare, heads, flows, highest, lowest);
    commit_end(last, at + 2, spare, heads, flows, highest, lowest);
}

// Overwrites every section by the step whose ends are in the spare.
pub fn commit(
    job: &[u8],
    spare: &[f64],
    heads: &mut [f64],
    flows: &mut [f64],
    highest: &mut [f64],
    lowest: &mut [f64],
)
    requires lent { (Lent job.now heads.old flows.old)
        × (pipe_count (pipe_table job.now) * 4 ≤ length spare.now) }
    requires job_in_bounds { (sections (job_of job.now) ≤ length highest.old)
        × (sections (job_of job.now) ≤ length lowest.old) }
    ensures { (nodes : ℕ → Node) → EndsIn job.now nodes heads.old flows.old
        spare.now → Stepped (new_section job.now nodes heads.old flows.old)
        0 (sections (job_of job.now)) heads flows highest lowest }
{
    for l in pipe_layout::each_pipe(job) {
        commit_pipe(job, l, l.number, spare, heads, flows, highest, lowest);
    }
}

// The check before a step: which section, if any, stops the run. Nothing is written.
#![tactic(auto)]

ghost use Rattle.std.specs.Prelude.{◌≡◌, ℕ, suc, ◌+◌, ◌-◌, ◌*◌, ◌<◌, ◌≤◌, eqb, length};
ghost use Rattle.loops.specs.Loops.{all_below, first_below};
ghost use Rattle.wave.specs.declared.Node.{Node};
ghost use Rattle.job.specs.Job.{sections};
ghost use Rattle.job.specs.Format.{job_of, pipe_table, initial_table, pipe_count};
ghost use Rattle.job.specs.Questions.{Accepted};
ghost use Rattle.recurrence.specs.Scan.{none, earlier};
ghost use Rattle.recurrence.specs.Step.{between};
ghost use Rattle.section.specs.Faults.{floor_in, fault_at, first_fault, found_fault, is_sound, sound_with, counted};
ghost use Rattle.inner_sections.specs.CutPipes.{along, section_count};
ghost use Rattle.inner_sections.specs.InnerSections.{inner_at};
ghost use Rattle.pipe_layout.specs.Layout.{laid_of, LaidPipe};
ghost use Rattle.node_sums.specs.FromRows.{along_rows, Lent, new_section};
ghost use Rattle.spare_ends.specs.Spare.{end_in, EndsIn};
ghost use Rattle.step_check.specs.BySpare.{new_by_spare, fault_by_spare};

use inner_check::FlooredPipe;
use inner_sections::CutPipe;
use pipe_layout::Laid;
use section::Fault;
use wave::HeadFlow;

// The floor head of section s.
fn floor_of(job: &[u8], s: usize) -> f64
    requires { (Accepted job.now) × (s < sections (job_of job.now)) }
    ensures { result ≡ floor_in (initial_table job.now) s }
{
    section::floor_at(job::tables::initial(job), s)
}

// The pipe, which is l, with the parts of table 3 and of the rows that belong to it. Its inner sections after the step
// are those of the whole.
fn cut<'a>(job: &'a [u8], l: Laid, heads: &'a [f64], flows: &'a [f64]) -> CutPipe<'a>
    requires { (Lent job.now heads.now flows.now) × (LaidPipe job.now (laid_of l)) }
    ensures count { section_count result ≡ l.reaches + 1 }
    ensures inner { (i : ℕ) → suc i < l.reaches
        → inner_at (along result) result.s i ≡ between (along_rows job.now heads.now flows.now) (laid_of l) i }
{
    let friction = job::tables::friction(job);
    let a = l.first_reach * 8;
    let b = a + l.reaches * 8;
    let first = l.first_section;
    let end = first + l.reaches + 1;
    CutPipe::new(&friction[a..b], l.s, &heads[first..end], &flows[first..end])
}

// 0 exactly where no inner section of a pipe has a fault after the step.
fn inner_faults(job: &[u8], l: Laid, heads: &[f64], flows: &[f64]) -> u64
    requires { (Lent job.now heads.now flows.now) × (LaidPipe job.now (laid_of l)) }
    ensures { let new = between (along_rows job.now heads.now flows.now)
        (laid_of l) in
        (result ≤ l.reaches + 1) × (eqb result 0 ≡ all_below (λ i. sound_with
        (floor_in (initial_table job.now) ((laid_of l).first_section + suc i)) (new i)) (l.reaches - 1)) }
{
    let initial = job::tables::initial(job);
    let first = l.first_section;
    let end = first + l.reaches + 1;
    let from = first * 24;
    let to = end * 24;
    let cut = cut(job, l, heads, flows);
    let floored = FlooredPipe {
        cut,
        floors: &initial[from..to],
    };
    floored.faults()
}

// The count of faults at both ends of a pipe, which stand in the spare from `at` on.
fn end_faults(job: &[u8], l: Laid, at: usize, spare: &[f64]) -> u64
    requires { (Accepted job.now) × (LaidPipe job.now (laid_of l)) × (at + 4 ≤ length spare.now) }
    ensures { let floor = floor_in (initial_table job.now) in
        let first = (laid_of l).first_section in
        (result ≤ 2) × (result ≡ counted (floor first) (end_in spare.now at)
        + counted (floor (first + l.reaches)) (end_in spare.now (at + 2))) }
{
    let last = l.first_section + l.reaches;
    let start = spare_ends::end_at(spare, at);
    let finish = spare_ends::end_at(spare, at + 2);
    let at_start = section::unsound(start.head, start.flow, floor_of(job, l.first_section));
    let at_finish = section::unsound(finish.head, finish.flow, floor_of(job, last));
    at_start + at_finish
}

// 0 exactly where no section has a fault after the step whose ends are in the spare.
fn faults(job: &[u8], heads: &[f64], flows: &[f64], spare: &[f64]) -> u64
    requires { (Lent job.now heads.now flows.now)
        × (pipe_count (pipe_table job.now) * 4 ≤ length spare.now) }
    ensures { (nodes : ℕ → Node) → EndsIn job.now nodes heads.now flows.now
        spare.now → eqb result 0 ≡ all_below (λ s. is_sound (fault_at (initial_table job.now)
        (new_section job.now nodes heads.now flows.now) s))
        (sections (job_of job.now)) }
{
    let mut bad: u64 = 0;
    for l in pipe_layout::each_pipe(job) {
        let within = inner_faults(job, l, heads, flows);
        let ends = end_faults(job, l, l.number * 4, spare);
        let here = within + ends;
        bad += here;
    }
    bad
}

// The new head and flow at offset i of pipe p, which is l: at its ends out of the spare.
fn new_at(
    job: &[u8],
    l: Laid,
    p: usize,
    i: usize,
    heads: &[f64],
    flows: &[f64],
    spare: &[f64],
) -> HeadFlow
    requires { (Lent job.now heads.now flows.now) × (LaidPipe job.now (laid_of l))
        × (i ≤ l.reaches) × (p * 4 + 4 ≤ length spare.now) }
    ensures { result ≡ new_by_spare job.now (laid_of l) spare.now (p * 4)
        heads.now flows.now i }
{
    let at = p * 4;
    if i == 0 {
        return spare_ends::end_at(spare, at);
    }
    if i == l.reaches {
        return spare_ends::end_at(spare, at + 2);
    }
    inner_check::inner_at(&cut(job, l, heads, flows), i - 1)
}

// The first section of pipe p, which is l, that has a fault after the step.
fn first_in_pipe(
    job: &[u8],
    l: Laid,
    p: usize,
    heads: &[f64],
    flows: &[f64],
    spare: &[f64],
) -> Result<(), Fault>
    requires { (Lent job.now heads.now flows.now) × (LaidPipe job.now (laid_of l))
        × (p * 4 + 4 ≤ length spare.now) }
    ensures { found_fault result ≡ first_below earlier none (fault_by_spare job.now (laid_of l)
        spare.now (p * 4) heads.now flows.now) (l.reaches + 1) }
{
    for i in 0..=l.reaches {
        let x = new_at(job, l, p, i, heads, flows, spare);
        let s = l.first_section + i;
        section::fault_of(x.head, x.flow, floor_of(job, s), s)?;
    }
    Ok(())
}

// The first section that has a fault after the step whose ends are in the spare.
fn first_fault(job: &[u8], heads: &[f64], flows: &[f64], spare: &[f64]) -> Result<(), Fault>
    requires { (Lent job.now heads.now flows.now)
        × (pipe_count (pipe_table job.now) * 4 ≤ length spare.now) }
    ensures { (nodes : ℕ → Node) → EndsIn job.now nodes heads.now flows.now
        spare.now → found_fault result
        ≡ first_fault (initial_table job.now) (sections (job_of job.now))
        (new_section job.now nodes heads.now flows.now) }
{
    for l in pipe_layout::each_pipe(job) {
        first_in_pipe(job, l, l.number, heads, flows, spare)?;
    }
    Ok(())
}

// The scan of the step whose ends are in the spare, before it is committed: the faults are counted, and the
// first is looked for only where there is one.
pub fn check(job: &[u8], heads: &[f64], flows: &[f64], spare: &[f64]) -> Result<(), Fault>
    requires { (Lent job.now heads.now flows.now)
        × (pipe_count (pipe_table job.now) * 4 ≤ length spare.now) }
    ensures { (nodes : ℕ → Node) → EndsIn job.now nodes heads.now flows.now
        spare.now → found_fault result
        ≡ first_fault (initial_table job.now) (sections (job_of job.now))
        (new_section job.now nodes heads.now flows.now) }
{
    if faults(job, heads, flows, spare) == 0 {
        return Ok(());
    }
    first_fault(job, heads, flows, spare)
}

// The start and the run-on, over lent rows.
#![tactic(auto)]

ghost use Rattle.std.specs.Prelude.{◌≡◌, ℕ, ◌+◌, ◌≤◌, Ok, Err, MatchResult};
ghost use Rattle.job.specs.Job.{sections};
ghost use Rattle.job.specs.Format.{job_of};
ghost use Rattle.recurrence.specs.Run.{started, ran, completed, steps};
ghost use Rattle.recurrence.specs.Calls.{gathered, state_in, called, start_call, run_on_call};
ghost use Rattle.recurrence.specs.Slices.{lent, before, after};
ghost use Rattle.surge.specs.Answers.{call_leaves};
ghost use Rattle.time_step.specs.StepsInRows.{Ready};

mod answer;

pub use answer::{Halt, Numbers};
use call_questions::Lengths;
use job::questions::Question;

// The questions to a job, then 20 of the rows: the section count where all have a yes, and else a refusal that is the
// answer of every call that begins so.
fn opened(
    job: &[u8],
    heads: &[f64],
    flows: &[f64],
    highest: &[f64],
    lowest: &[f64],
    speeds: &[f64],
    inflows: &[f64],
    spare: &[f64],
) -> Result<usize, Halt>
    ensures { let rows = gathered heads.now flows.now highest.now lowest.now speeds.now inflows.now spare.now in
        MatchResult result (λ n. (Ready job.now rows) × (n ≡ sections (job_of job.now)))
        (λ halt. (call_leaves rows (Err halt) ≡ start_call job.now rows)
        × ((m N : ℕ) → call_leaves rows (Err halt) ≡ run_on_call job.now m N rows)) }
{
    let lengths = Lengths {
        heads: heads.len(),
        flows: flows.len(),
        highest: highest.len(),
        lowest: lowest.len(),
        speeds: speeds.len(),
        inflows: inflows.len(),
        spare: spare.len(),
    };
    let held = call_questions::read_and_enough(job, lengths)?;
    Ok(held.sections)
}

// The start of an accepted job of n sections, once question 20 has a yes.
fn begin(
    job: &[u8],
    n: usize,
    heads: &mut [f64],
    flows: &mut [f64],
    highest: &mut [f64],
    lowest: &mut [f64],
    speeds: &mut [f64],
    inflows: &mut [f64],
    spare: &mut [f64],
)
    requires { (Ready job.now (lent heads flows highest lowest speeds inflows spare))
        × (n ≡ sections (job_of job.now)) }
    ensures { call_leaves (after heads flows highest lowest speeds inflows spare) (Ok 0)
        ≡ called job.now (before heads flows highest lowest speeds inflows spare)
        (ran (started (job_of job.now)) completed) }
{
    call_rows::write_start(job, n, heads, flows, highest, lowest);
    call_rows::start_pairs(job, speeds, inflows);
    call_rows::clear_spare(job, spare);
}

// The start.
pub fn start(
    job: &[u8],
    heads: &mut [f64],
    flows: &mut [f64],
    highest: &mut [f64],
    lowest: &mut [f64],
    speeds: &mut [f64],
    inflows: &mut [f64],
    spare: &mut [f64],
) -> Result<u64, Halt>
    ensures { call_leaves (after heads flows highest lowest speeds inflows spare) result
        ≡ start_call job.now (before heads flows highest lowest speeds inflows spare) }
{
    let n = opened(job, heads, flows, highest, lowest, speeds, inflows, spare)?;
    begin(
        job, n, heads, flows, highest, lowest, speeds, inflows, spare,
    );
    Ok(0)
}

// The run-on of an accepted job, once questions 20 to 22 have a yes.
fn carry_on(
    job: &[u8],
    done: u64,
    count: u64,
    heads: &mut [f64],
    flows: &mut [f64],
    highest: &mut [f64],
    lowest: &mut [f64],
    speeds: &mut [f64],
    inflows: &mut [f64],
    spare: &mut [f64],
) -> Result<u64, Halt>
    requires { (Ready job.now (lent heads flows highest lowest speeds inflows spare))
        × (done + count ≤ 1000000) }
    ensures { let j = job_of job.now in
        let old = before heads flows highest lowest speeds inflows spare in
        call_leaves (after heads flows highest lowest speeds inflows spare) result
        ≡ called job.now old (steps j count done (state_in j old)) }
{
    let ended = time_step::run(
        job, done, count, heads, flows, highest, lowest, speeds, inflows, spare,
    );
    call_rows::clear_spare(job, spare);
    Ok(ended?)
}

// The run-on: m is `done`, N is `count`.
pub fn run_on(
    job: &[u8],
    done: u64,
    count: u64,
    heads: &mut [f64],
    flows: &mut [f64],
    highest: &mut [f64],
    lowest: &mut [f64],
    speeds: &mut [f64],
    inflows: &mut [f64],
    spare: &mut [f64],
) -> Result<u64, Halt>
    ensures { call_leaves (after heads flows highest lowest speeds inflows spare) result
        ≡ run_on_call job.now done count (before heads flows highest lowest speeds inflows spare) }
{
    let n = opened(job, heads, flows, highest, lowest, speeds, inflows, spare)?;
    let limit = call_questions::within_limit(done, count);
    let fit = call_questions::acceptable(job, n, heads, flows, highest, lowest, speeds, inflows);
    // Tests and no `ask(..)?`: the edit of a refusal that writes stands between test and return.
    if !limit {
        return Err(Halt::Refused(Question::StepsInAll));
    }
    if !fit {
        return Err(Halt::Refused(Question::LentState));
    }
    carry_on(
        job, done, count, heads, flows, highest, lowest, speeds, inflows, spare,
    )
}

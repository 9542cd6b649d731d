// The questions put to the start and to the run-on: those to a job, and 20 to 22.
#![tactic(auto)]

ghost use Rattle.std.specs.Prelude.{◌≡◌, List, ◌≤◌, length, Float};
ghost use Rattle.job.specs.Job.{sections};
ghost use Rattle.job.specs.Format.{job_of, node_table, node_count};
ghost use Rattle.job.specs.Questions.{Accepted};
ghost use Rattle.reader.specs.Answer.{paper_read};
ghost use Rattle.recurrence.specs.Scan.{acceptable};
ghost use Rattle.recurrence.specs.Run.{within_limit};
ghost use Rattle.recurrence.specs.Calls.{state_in, gathered};
ghost use Rattle.call_questions.specs.Opening.{long_enough, first_asked};

use job::questions::{Question, ask};
use reader::Held;

// The most steps that a run may come to.
const LIMIT: u64 = 1000000;

// The lengths of the rows, in the order in which they are lent.
#[derive(Clone, Copy)]
pub struct Lengths {
    pub heads: usize,
    pub flows: usize,
    pub highest: usize,
    pub lowest: usize,
    pub speeds: usize,
    pub inflows: usize,
    pub spare: usize,
}

// Question 20 of a job of n sections, of the lengths of the rows.
fn enough(job: &[u8], n: usize, l: Lengths) -> bool
    requires { (Accepted job.now) × (n ≡ sections (job_of job.now)) }
    ensures { result ≡ long_enough (job_of job.now) l }
{
    let nodes = node_values::node_count(job);
    let ends = pipe_layout::pipe_count(job) * 4;
    let by_sections = (n <= l.heads) & (n <= l.flows) & (n <= l.highest) & (n <= l.lowest);
    by_sections & (nodes <= l.speeds) & (nodes <= l.inflows) & (ends <= l.spare)
}

// Questions 1 to 15, with 50 and 53, then 20 of the lengths of the rows: the first with a no, or what the job holds.
#[tactic(auto, unfolding(crate::specs::Opening::first_asked), using(reader::proofs::AnswerLaws::answer_is))]
pub fn read_and_enough(job: &[u8], l: Lengths) -> Result<Held, Question>
    ensures { paper_read result
        ≡ first_asked job.now (long_enough (job_of job.now) l) }
{
    let held = reader::read(job)?;
    ask(enough(job, held.sections, l), Question::LentLengths)?;
    Ok(held)
}

// Question 21.
pub fn within_limit(done: u64, count: u64) -> bool
    ensures { result ≡ within_limit done count }
{
    if done <= LIMIT {
        count <= LIMIT - done
    } else {
        false
    }
}

// Question 22 of a job of n sections; e stands for the spare, which it does not ask about.
pub fn acceptable(
    job: &[u8],
    n: usize,
    heads: &[f64],
    flows: &[f64],
    highest: &[f64],
    lowest: &[f64],
    speeds: &[f64],
    inflows: &[f64],
) -> bool
    requires accepted { (Accepted job.now) × (n ≡ sections (job_of job.now)) }
    requires n_in_bounds { (n ≤ length heads.now) × (n ≤ length flows.now)
        × (n ≤ length highest.now) × (n ≤ length lowest.now) }
    requires job_in_bounds { (node_count (node_table job.now) ≤ length speeds.now)
        × (node_count (node_table job.now) ≤ length inflows.now) }
    ensures { (e : List Float) → let j = job_of job.now in
        result ≡ acceptable j (state_in j (gathered heads.now flows.now highest.now
        lowest.now speeds.now inflows.now e)) }
{
    let initial = job::tables::initial(job);
    let nodes = node_values::node_count(job);
    let points = section::acceptable(initial, n, heads, flows, highest, lowest);
    let pairs = node_values::finite_pairs(nodes, speeds, inflows);
    points & pairs
}

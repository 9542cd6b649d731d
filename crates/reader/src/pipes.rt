// Questions 5 to 9: the table of pipes. Tests that stand by themselves are joined by `&`, which asks each of them: a
// proof then meets no branch.
ghost use Rattle.std.specs.Prelude.{◌≡◌, ◌<◌};
ghost use Rattle.job.specs.Format.{pipe_count, pipe_in};
ghost use Rattle.job.specs.Questions.{holds_records, joins, pipes_join, constant_fits, constants_fit};
ghost use Rattle.job.specs.Questions.{pair_questions, pipe_questions, first_no};
ghost use Rattle.job.specs.Refusals.{no_of};

use job::pipes::{finish, reaches, s_of, section_count, start};
use job::questions::{Question, ask};

// Is the table one of whole records, low to high of them?
fn holds_records(t: &[u8], width: usize, low: usize, high: usize) -> bool
    requires { 0 < width }
    ensures { result ≡ holds_records width low high t.now }
{
    let count = t.len() / width;
    (t.len() % width == 0) & (low <= count) & (count <= high)
}

// 7, of pipe p: has it two different nodes, both present, and 1 to 511 reaches?
fn joins(pipes: &[u8], count: usize, p: usize) -> bool
    requires { p < pipe_count pipes.now }
    ensures { result ≡ joins count (pipe_in pipes.now p) }
{
    let a = start(pipes, p);
    let b = finish(pipes, p);
    let n = reaches(pipes, p);
    (a != b) & (a < count) & (b < count) & (1 <= n) & (n <= 511)
}

// 7
fn pipes_join(pipes: &[u8], count: usize) -> bool
    ensures { result ≡ pipes_join pipes.now count }
{
    (0..pipes.len() / 12).all(|p| joins(pipes, count, p))
}

// 9, of pipe p: is S finite and above zero?
fn constant_fits(pipes: &[u8], p: usize) -> bool
    requires { p < pipe_count pipes.now }
    ensures { result ≡ constant_fits (pipe_in pipes.now p) }
{
    if fields::finite_at(pipes, p * 12 + 4) {
        0.0 < s_of(pipes, p)
    } else {
        false
    }
}

// 9
fn constants_fit(pipes: &[u8]) -> bool
    ensures { result ≡ constants_fit pipes.now }
{
    (0..pipes.len() / 12).all(|p| constant_fits(pipes, p))
}

// Questions 5 to 9.
#[tactic(auto, unfolding(job::specs::Questions::pipe_questions, job::specs::Questions::first_no, job::specs::Questions::sections_fit), using(job::proofs::TableBounds::pairs_right, job::proofs::TableBounds::table_short))]
pub fn ask_all(job: &[u8]) -> Result<(), Question>
    requires { first_no pair_questions job.now ≡ 0 }
    ensures { no_of result ≡ first_no pipe_questions job.now }
{
    let pipes = job::tables::pipes(job);
    let nodes = job::tables::nodes(job);
    ask(holds_records(pipes, 12, 1, 32), Question::PipesWhole)?;
    ask(holds_records(nodes, 26, 2, 32), Question::NodesWhole)?;
    ask(pipes_join(pipes, nodes.len() / 26), Question::PipesJoin)?;
    ask(section_count(pipes) <= 512, Question::SectionCount)?;
    ask(constants_fit(pipes), Question::PipeConstants)
}

// Questions 1 to 4: the pairs, and the tables end to end.
ghost use Rattle.std.specs.Prelude.{◌≡◌, ◌≤◌, length};
ghost use Rattle.job.specs.Format.{pair_count, pairs_end};
ghost use Rattle.job.specs.Questions.{size_fits, pairs_fit, tables_follow, pair_questions, first_no};
ghost use Rattle.job.specs.Refusals.{no_of};

use job::pairs::{length_of, listing_steps, offset_of, pair_count, pairs_end};
use job::questions::{Question, ask};

// The least and the greatest number of pairs that a job may have.
const LEAST_PAIRS: usize = 5;

const MOST_PAIRS: usize = 7;

// 1
fn size_fits(job: &[u8]) -> bool
    ensures { result ≡ size_fits job.now }
{
    (pairs_end(LEAST_PAIRS) <= job.len()) & (job.len() <= 32768)
}

// 2
fn pairs_fit(job: &[u8]) -> bool
    requires { 2 ≤ length job.now }
    ensures { result ≡ pairs_fit job.now }
{
    let n = pair_count(job);
    (LEAST_PAIRS <= n) & (n <= MOST_PAIRS) & (pairs_end(n) <= job.len())
}

// 3
fn tables_follow(job: &[u8]) -> bool
    requires { pairs_end (pair_count job.now) ≤ length job.now }
    ensures { result ≡ tables_follow job.now }
{
    let count = pair_count(job);
    let mut begin = pairs_end(count);
    for k in 0..count {
        let offset = offset_of(job, k);
        if offset != begin {
            return false;
        }
        begin = offset + length_of(job, k);
    }
    begin == job.len()
}

// Questions 1 to 4.
#[tactic(auto, unfolding(job::specs::Questions::pair_questions, job::specs::Questions::first_no, job::specs::Questions::steps_fit), using(job::proofs::TableBounds::size_least, job::proofs::TableBounds::pairs_within))]
pub fn ask_all(job: &[u8]) -> Result<(), Question>
    ensures { no_of result ≡ first_no pair_questions job.now }
{
    ask(size_fits(job), Question::Size)?;
    ask(pairs_fit(job), Question::PairCount)?;
    ask(tables_follow(job), Question::TablesInOrder)?;
    ask(listing_steps(job) <= 1000000, Question::ListingSteps)
}

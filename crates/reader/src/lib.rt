// The questions put to every call that takes a job: 1 to 15, with 50 and 53 after 10.
#![tactic(auto)]

ghost use Rattle.std.specs.Prelude.{◌≡◌};
ghost use Rattle.job.specs.Questions.{refusal};
ghost use Rattle.job.specs.Refusals.{no_of};
ghost use Rattle.reader.specs.Answer.{paper_read, read_answer};

mod pairs;
mod pipes;

use job::questions::Question;

// What an accepted job holds: its section count, and the steps of its listing.
#[derive(Clone, Copy)]
pub struct Held {
    pub sections: usize,
    pub steps: usize,
}

// All of the questions, in their order.
#[tactic(auto, using(job::proofs::FirstNo::refusal_is, job::proofs::FirstNo::number_some))]
fn ask_all(job: &[u8]) -> Result<(), Question>
    ensures { no_of result ≡ refusal job.now }
{
    pairs::ask_all(job)?;
    pipes::ask_all(job)?;
    node_questions::ask_all(job)?;
    value_questions::ask_all(job)
}

// Questions 1 to 15, with 50 and 53: the first with a no, or what the job holds.
#[tactic(auto, unfolding(crate::specs::Answer::read_answer, job::specs::Format::job_of, job::specs::Job::sections), using(job::proofs::FirstNo::number_some, job::proofs::FirstNo::none_refused, job::proofs::TableBounds::pairs_right, job::proofs::TableBounds::table_short, job::proofs::TableBounds::size_least))]
pub fn read(job: &[u8]) -> Result<Held, Question>
    ensures { paper_read result ≡ read_answer job.now }
{
    ask_all(job)?;
    Ok(Held {
        sections: job::pipes::section_count(job::tables::pipes(job)),
        steps: job::pairs::listing_steps(job),
    })
}

// The listing of a job, from its bytes to its text, over lent slices.
ghost use Rattle.std.specs.Prelude.{◌≡◌, ◌*◌, ◌≤◌, length};
ghost use Rattle.job.specs.Job.{sections};
ghost use Rattle.job.specs.Format.{job_of, listing_steps};
ghost use Rattle.job.specs.Questions.{Accepted};
ghost use Rattle.recurrence.specs.Slices.{lent, after};
ghost use Rattle.surge.specs.Answers.{paper_answer};
ghost use Rattle.listing_text.specs.Listing.{closing_text, AtFront};
ghost use Rattle.surgelist.specs.ListingOf.{listing_of};
ghost use Rattle.closing_line.specs.Closing.{closing_of};
ghost use Rattle.surgelist.specs.LentRows.{Long, text_of};

use closing_line::Closing;
use surge::Halt;

// The start and the steps of an accepted job. The listing is what they leave in the rows and answer.
fn run(
    job: &[u8],
    steps: usize,
    heads: &mut [f64],
    flows: &mut [f64],
    highest: &mut [f64],
    lowest: &mut [f64],
    speeds: &mut [f64],
    inflows: &mut [f64],
    spare: &mut [f64],
) -> Result<u64, Halt>
    requires accepted { (Accepted job.now) × (steps ≡ listing_steps job.now) }
    requires long { Long (lent heads flows highest lowest speeds inflows spare) }
    ensures { text_of (sections (job_of job.now))
        (after heads flows highest lowest speeds inflows spare) (paper_answer result)
        ≡ listing_of job.now }
{
    let count = steps as u64;
    // No `?`: that an accepted job's start is not refused is no fact of the code's types; the run-on asks again.
    let _ = surge::start(job, heads, flows, highest, lowest, speeds, inflows, spare);
    surge::run_on(
        job, 0, count, heads, flows, highest, lowest, speeds, inflows, spare,
    )
}

// The closing line of an answer.
#[tactic(auto, unfolding(surge::specs::Answers::paper_answer), using(crate::proofs::ClosingLaws::refused_line))]
fn closing(answer: Result<u64, Halt>) -> Closing
    ensures { let a = paper_answer answer in closing_of result ≡ closing_text a.number a.steps a.section }
{
    match answer {
        Ok(steps) => Closing::Done {
            steps: steps as usize,
        },
        Err(Halt::Refused(question)) => Closing::Refused(question.number()),
        Err(Halt::NotFinite { steps, section }) => {
            let steps = steps as usize;
            Closing::NotFinite { steps, section }
        }
        Err(Halt::Parted { steps, section }) => {
            let steps = steps as usize;
            Closing::Parted { steps, section }
        }
    }
}

// Writes the listing of a job at the front of `out` and answers how many bytes it takes. The rows
// are the program's own: what is left in them is nobody's, and no clause speaks of it.
pub fn write_listing_of(
    job: &[u8],
    heads: &mut [f64],
    flows: &mut [f64],
    highest: &mut [f64],
    lowest: &mut [f64],
    speeds: &mut [f64],
    inflows: &mut [f64],
    spare: &mut [f64],
    out: &mut [u8],
) -> usize
    requires { (Long (lent heads flows highest lowest speeds inflows spare)) × (513 * 72 ≤ length out.old) }
    ensures { AtFront (listing_of job.now) out.old result out.new }
{
    match reader::read(job) {
        Err(question) => {
            let closing = closing(Err(Halt::Refused(question)));
            listing::write_listing(0, closing, heads, flows, highest, lowest, out)
        }
        Ok(held) => {
            let answer = run(
                job, held.steps, heads, flows, highest, lowest, speeds, inflows, spare,
            );
            let closing = closing(answer);
            listing::write_listing(held.sections, closing, heads, flows, highest, lowest, out)
        }
    }
}

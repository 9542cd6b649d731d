// surgelist: reads one job from standard input, runs its steps and prints the listing.
#![tactic(auto)]

ghost use Rattle.std.specs.Prelude.{List, ℕ, OnOk, IsErrOf};
ghost use Rattle.std.specs.Io.KnownBytes.{Appends, Consumes, Keeps};
ghost use Rattle.surgelist.specs.ListingOf.{listing_of};

mod input;
mod listing_of;

use std::io::{Read, Write};
use std::{fmt, io};

// Prints the listing of a job, in one piece.
fn print_listing<W: Write>(output: &mut W, job: &[u8]) -> io::Result<()>
    ensures { OnOk result (Appends (W.contents output.old) (W.contents output.new) (listing_of job.now)) }
{
    let mut heads = [0.0f64; 512];
    let mut flows = [0.0f64; 512];
    let mut highest = [0.0f64; 512];
    let mut lowest = [0.0f64; 512];
    let mut speeds = [0.0f64; 32];
    let mut inflows = [0.0f64; 32];
    let mut spare = [0.0f64; 128];
    let mut text = [0u8; 36936];
    let n = listing_of::write_listing_of(
        job,
        &mut heads,
        &mut flows,
        &mut highest,
        &mut lowest,
        &mut speeds,
        &mut inflows,
        &mut spare,
        &mut text,
    );
    output.write_all(&text[0..n])
}

// Why a job's listing was not printed whole.
#[derive(Clone, Copy, Debug, PartialEq, Eq)]
enum Failure {
    Unread,
    Unwritten,
}

impl fmt::Display for Failure {
    fn fmt<W: fmt::Write>(&self, f: &mut fmt::Formatter<W>) -> fmt::Result {
        f.write_str(match self {
            Failure::Unread => "standard input could not be read",
            Failure::Unwritten => "the listing could not be written whole",
        })
    }
}

// Reads one job and prints its listing. A byte more than a job may have is read, so that a longer
// one shows.
fn list_job<R: Read, W: Write>(input: &mut R, output: &mut W) -> Result<(), Failure>
    ensures listed { OnOk result ((job : List ℕ)
        × Consumes (R.remaining input.old) (R.remaining input.new) job
        × Appends (W.contents output.old) (W.contents output.new) (listing_of job)) }
    ensures unread { IsErrOf result Failure.Unread
        → Keeps (W.contents output.old) (W.contents output.new) }
{
    let mut bytes = [0u8; 32769];
    let Ok(n) = input::read_all(input, &mut bytes) else {
        return Err(Failure::Unread);
    };
    print_listing(output, &bytes[..n]).map_err(|_| Failure::Unwritten)
}

fn main(rt: HostRuntime) {
    if let Err(failure) = list_job(&mut rt.stdin(), &mut rt.stdout()) {
        let _ = eprintln!(rt; "surgelist: {failure}");
    }
}

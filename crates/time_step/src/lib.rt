// A step over all pipes, in place, and a run of steps. The new ends of the pipes are worked out into the spare; a check
// that only reads looks for a section that stops the run; a commit overwrites heads and flows and takes the new heads
// into the envelopes; then the pairs of the nodes are written.
#![tactic(auto)]

ghost use Rattle.std.specs.Prelude.{◌+◌, ◌≤◌};
ghost use Rattle.recurrence.specs.Slices.{lent, before, after};
ghost use Rattle.time_step.specs.StepsInRows.{Ready, StepsInRows};

mod one_step;

use one_step::one_step;
use section::Fault;

// A run that a fault stopped: the steps done in all, and the fault.
#[derive(Clone, Copy, Debug, PartialEq, Eq, Hash)]
pub struct Stopped {
    pub steps: u64,
    pub fault: Fault,
}

// Does `count` steps after `done`, fewer only where one stops the run. T of the nodes is worked out once. It answers
// the steps done in all.
pub fn run(
    job: &[u8],
    done: u64,
    count: u64,
    heads: &mut [f64],
    flows: &mut [f64],
    highest: &mut [f64],
    lowest: &mut [f64],
    speeds: &mut [f64],
    inflows: &mut [f64],
    spare: &mut [f64],
) -> Result<u64, Stopped>
    requires { (Ready job.now (lent heads flows highest lowest speeds inflows spare))
        × (done + count ≤ 1000000) }
    ensures { StepsInRows job.now done count
        (before heads flows highest lowest speeds inflows spare)
        (after heads flows highest lowest speeds inflows spare) result }
{
    let sums = node_sums::constant_sums(job);
    let mut values = [0.0f64; 32];
    let mut nodes = [0.0f64; 32];
    let mut entering = [0.0f64; 32];
    for i in 0..count {
        one_step(
            job,
            done + i,
            sums,
            &mut values,
            &mut nodes,
            &mut entering,
            heads,
            flows,
            highest,
            lowest,
            speeds,
            inflows,
            spare,
        )?;
    }
    Ok(done + count)
}

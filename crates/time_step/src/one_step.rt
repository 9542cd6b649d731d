// One step over the lent rows, in place.
ghost use Rattle.std.specs.Prelude.{◌≡◌, ◌+◌, ◌≤◌, length};
ghost use Rattle.node_sums.specs.FromRows.{constant_sums};
ghost use Rattle.recurrence.specs.Slices.{lent, before, after};
ghost use Rattle.time_step.specs.StepsInRows as inner;

use super::Stopped;
use wave::Sums;

// The step after `done` steps; `sums` has the sums of the nodes before any K; `values`, `nodes` and `entering` are room
// for the nodes' values, heads and inflows, and nothing in them is kept. Where the check finds a fault nothing but the
// spare is written. It answers the steps done in all.
pub(super) fn one_step(
    job: &[u8],
    done: u64,
    sums: [Sums; 32],
    values: &mut [f64],
    nodes: &mut [f64],
    entering: &mut [f64],
    heads: &mut [f64],
    flows: &mut [f64],
    highest: &mut [f64],
    lowest: &mut [f64],
    speeds: &mut [f64],
    inflows: &mut [f64],
    spare: &mut [f64],
) -> Result<u64, Stopped>
    requires ready { (inner.Ready job.now (lent heads flows highest lowest speeds inflows spare))
        × (done + 1 ≤ 1000000) × (sums ≡ constant_sums job.now) }
    requires in_bounds { (32 ≤ length values.old) × (32 ≤ length nodes.old) × (32 ≤ length entering.old) }
    ensures { inner.StepsInRows job.now done 1
        (before heads flows highest lowest speeds inflows spare)
        (after heads flows highest lowest speeds inflows spare) result }
{
    let after = done + 1;
    let step = after as usize;
    node_values::values_at(job, step, speeds, inflows, values);
    pipe_ends::write_ends(job, values, sums, heads, flows, nodes, entering, spare);
    let found = step_check::check(job, heads, flows, spare);
    found.map_err(|fault| Stopped { steps: done, fault })?;
    step_commit::commit(job, spare, heads, flows, highest, lowest);
    node_values::write_pairs(job, values, entering, speeds, inflows);
    Ok(after)
}

// The nodes' values at a step, and the pair that a run keeps of each node: its speed and its inflow, in two lent rows.
#![tactic(auto)]

ghost use Rattle.std.specs.Prelude.{◌≡◌, true, cond, ℕ, ◌<◌, ◌≤◌, length, leb};
ghost use Rattle.loops.specs.Loops.{all_below};
ghost use Rattle.wave.specs.Nodes.{rundown};
ghost use Rattle.job.specs.Job.{scheduled};
ghost use Rattle.job.specs.Format.{job_of, node_table, node_count, kind_in, trip_count, trip_in};
ghost use Rattle.job.specs.Questions.{rundown_fits, Accepted};
ghost use Rattle.recurrence.specs.State.{drive_of};
ghost use Rattle.recurrence.specs.Scan.{finite_drive};
ghost use Rattle.node_sums.specs.FromRows.{OverNodes};
ghost use Rattle.node_values.specs.Pairs.{pair_in, value_from, PairsStored};

use job::nodes::{NodeKind, UnknownKind, node_kind};

// The number of nodes.
pub fn node_count(job: &[u8]) -> usize
    requires { Accepted job.now }
    ensures { result ≡ node_count (node_table job.now) }
{
    job::tables::nodes(job).len() / 26
}

// v of each node by its schedule at a step, counted from 1. The place of a node's schedule, the sum of the counts
// before it, is carried along.
pub fn scheduled_at(job: &[u8], step: usize, values: &mut [f64])
    requires { (Accepted job.now) × (1 ≤ step) × (node_count (node_table job.now) ≤ length values.old) }
    ensures { OverNodes job.now (scheduled (job_of job.now) step)
        values.new }
{
    let nodes = job::tables::nodes(job);
    let schedules = job::tables::schedules(job);
    let counts = job::tables::counts(job);
    let n = nodes.len() / 26;
    let mut place = 0;
    for node in 0..n {
        let count = job::schedules::schedule_count(nodes, counts, node);
        values[node] = job::schedules::value_at(schedules, place, count, step);
        place += count;
    }
}

// v of a pump that record i names: from its trip step on by its rundown, from the pair that it holds; before it, v.
fn value_by(trips: &[u8], i: usize, step: usize, speed: f64, inflow: f64, v: f64) -> f64
    requires { (i < trip_count trips.now) × (rundown_fits (trip_in trips.now i) ≡ true) }
    ensures { let t = trip_in trips.now i in
        result ≡ cond (leb t.step step) (rundown t.G t.t0 t.t1 speed inflow) v }
{
    if job::trips::step_of(trips, i) <= step {
        job::trips::rundown_at(trips, i, speed, inflow)
    } else {
        v
    }
}

// v of each node at a step, counted from 1: by its schedule, then of each pump that a record names. A step has its
// values from here alone.
pub fn values_at(job: &[u8], step: usize, speeds: &[f64], inflows: &[f64], values: &mut [f64])
    requires accepted { (Accepted job.now) × (1 ≤ step) × (node_count (node_table job.now) ≤ length values.old) }
    requires job_in_bounds { (node_count (node_table job.now) ≤ length speeds.now)
        × (node_count (node_table job.now) ≤ length inflows.now) }
    ensures { OverNodes job.now
        (value_from job.now step speeds.now inflows.now) values.new }
{
    scheduled_at(job, step, values);
    let trips = job::tables::trips(job);
    let count = job::trips::trip_count(trips);
    for i in 0..count {
        let node = job::trips::node_of(trips, i);
        values[node] = value_by(trips, i, step, speeds[node], inflows[node], values[node]);
    }
}

// The speed and the inflow of a node.
#[derive(Clone, Copy)]
struct Pair {
    speed: f64,
    inflow: f64,
}

// The pair of a node with the value v and the inflow q: of a pump these two, of any other node +0 twice. A number
// that stands for no kind is taken for a pump's, as `kind_in` takes it.
#[tactic(auto, unfolding(recurrence::specs::State::drive_of, recurrence::specs::State::no_drive, job::specs::Format::kind_in))]
fn pair_of(nodes: &[u8], node: usize, v: f64, q: f64) -> Pair
    requires { node < node_count nodes.now }
    ensures { (result.speed ≡ (drive_of (kind_in nodes.now node) v q).speed)
        × (result.inflow ≡ (drive_of (kind_in nodes.now node) v q).inflow) }
{
    match node_kind(nodes, node) {
        Ok(NodeKind::Pump) | Err(UnknownKind) => Pair {
            speed: v,
            inflow: q,
        },
        Ok(NodeKind::Junction | NodeKind::Reservoir | NodeKind::Valve) => Pair {
            speed: 0.0,
            inflow: 0.0,
        },
    }
}

// The pair of each node into the rows, from its value and its inflow: what the start and a finished step write.
pub fn write_pairs(
    job: &[u8],
    values: &[f64],
    found: &[f64],
    speeds: &mut [f64],
    inflows: &mut [f64],
)
    requires accepted { (Accepted job.now) × (node_count (node_table job.now) ≤ length values.now)
        × (node_count (node_table job.now) ≤ length found.now) }
    requires job_in_bounds { (node_count (node_table job.now) ≤ length speeds.old)
        × (node_count (node_table job.now) ≤ length inflows.old) }
    ensures { PairsStored job.now values.now found.now speeds inflows }
{
    let nodes = job::tables::nodes(job);
    let n = nodes.len() / 26;
    for node in 0..n {
        let pair = pair_of(nodes, node, values[node], found[node]);
        speeds[node] = pair.speed;
        inflows[node] = pair.inflow;
    }
}

// Question 22 of the pairs of the first n nodes: are they finite?
pub fn finite_pairs(n: usize, speeds: &[f64], inflows: &[f64]) -> bool
    requires { (n ≤ length speeds.now) × (n ≤ length inflows.now) }
    ensures { result ≡ all_below (λ (y : ℕ). finite_drive (pair_in speeds.now inflows.now y)) n }
{
    (0..n).all(|node| section::both_finite(speeds[node], inflows[node]))
}

// Whether a job's layout is a chain: a reservoir, pipes end to end with junctions that nothing is drawn from between
// them, and a valve.
#![tactic(auto)]

ghost use Rattle.std.specs.Prelude.{◌≡◌, true, ℕ, ◌+◌, ◌*◌, ◌<◌, ◌≤◌, length};
ghost use Rattle.loops.specs.Loops.{all_below};
ghost use Rattle.job.specs.Format.{pipe_count, pipe_in, node_count, kind_in, node_in, entries_from, job_of};
ghost use Rattle.job.specs.Questions.{Accepted};
ghost use Rattle.job.specs.QuestionParts.{NodesRight, numbers_finite};
ghost use Rattle.chain.specs.Chain.{pipe_fits, all_zero, node_fits, is_chain};

use job::nodes::{NodeKind, UnknownKind, node_kind};

// Whether the `count` entries from a place on are all zero, of either sign.
fn all_zero(schedules: &[u8], place: usize, count: usize) -> bool
    requires { ((place + count) * 8 ≤ length schedules.now)
        × (numbers_finite schedules.now place count ≡ true) }
    ensures { result ≡ all_zero (entries_from schedules.now place count) }
{
    (0..count).all(|i| fields::f64_at(schedules, (place + i) * 8) == 0.0)
}

// Whether pipe p runs from node p to node p + 1.
fn pipe_fits(pipes: &[u8], p: usize) -> bool
    requires { p < pipe_count pipes.now }
    ensures { result ≡ pipe_fits p (pipe_in pipes.now p) }
{
    let start = job::pipes::start(pipes, p);
    let finish = job::pipes::finish(pipes, p);
    (start == p) & (finish == p + 1)
}

// Whether each pipe does.
fn pipes_fit(pipes: &[u8]) -> bool
    ensures { result ≡ all_below (λ (p : ℕ). pipe_fits p (pipe_in pipes.now p))
        (pipe_count pipes.now) }
{
    (0..pipes.len() / 12).all(|p| pipe_fits(pipes, p))
}

// Whether a node of a chain whose last node is `last` is what it must be. Its schedule has `count` entries from
// `place` on.
#[tactic(auto, unfolding(crate::specs::Chain::node_fits, crate::specs::Chain::is_junction, crate::specs::Chain::is_reservoir, crate::specs::Chain::is_valve, job::specs::Format::kind_in))]
fn node_fits(
    nodes: &[u8],
    schedules: &[u8],
    node: usize,
    last: usize,
    place: usize,
    count: usize,
) -> bool
    requires { (node < node_count nodes.now) × ((place + count) * 8 ≤ length schedules.now)
        × (numbers_finite schedules.now place count ≡ true) }
    ensures { result ≡ node_fits last node record {
      kind = kind_in nodes.now node;
      schedule = entries_from schedules.now place count;
    } }
{
    match node_kind(nodes, node) {
        Ok(NodeKind::Junction) => node != 0 && node != last && all_zero(schedules, place, count),
        Ok(NodeKind::Reservoir) => node == 0,
        Ok(NodeKind::Valve) => (node != 0) & (node == last),
        Ok(NodeKind::Pump) | Err(UnknownKind) => false,
    }
}

// Whether each node is. The place of a node's schedule, the sum of the counts before it, is carried along.
fn nodes_fit(nodes: &[u8], counts: &[u8], schedules: &[u8], last: usize) -> bool
    requires { (NodesRight nodes.now counts.now schedules.now) × (node_count nodes.now ≤ 32) }
    ensures { result ≡ all_below (λ (node : ℕ). node_fits last node
        (node_in nodes.now counts.now schedules.now node))
        (node_count nodes.now) }
{
    let mut place = 0;
    for node in 0..nodes.len() / 26 {
        let count = job::schedules::schedule_count(nodes, counts, node);
        if !node_fits(nodes, schedules, node, last, place, count) {
            return false;
        }
        place += count;
    }
    true
}

// Whether the layout is a chain. With n pipes it has the nodes 0 to n.
pub fn is_chain(job: &[u8]) -> bool
    requires { Accepted job.now }
    ensures { result ≡ is_chain (job_of job.now) }
{
    let pipes = job::tables::pipes(job);
    let nodes = job::tables::nodes(job);
    let counts = job::tables::counts(job);
    let schedules = job::tables::schedules(job);
    let last = pipes.len() / 12;
    if nodes.len() / 26 != last + 1 {
        return false;
    }
    if !pipes_fit(pipes) {
        return false;
    }
    nodes_fit(nodes, counts, schedules, last)
}

// The ends of the pipes at a step, from the old state alone: K at each end, the nodes' sums and heads, and the new head
// and flow at each end, in the spare.
#![tactic(auto)]

ghost use Rattle.std.specs.Prelude.{◌≡◌, ◌+◌, ◌*◌, ◌≤◌, length, drop};
ghost use Rattle.job.specs.Format.{pipe_table, pipe_count};
ghost use Rattle.job.specs.Questions.{Accepted};
ghost use Rattle.node_sums.specs.FromRows.{Lent, OverNodes, value_in};
ghost use Rattle.node_sums.specs.FromRows.{constant_sums, node_sums, end_nodes, inflow_at};
ghost use Rattle.spare_ends.specs.Spare.{KIn, EndsByK, EndsIn};

use wave::Sums;

// The sums of each node, from those before any K; and K at both ends of each pipe into the spare, where the
// flows will be.
fn keep_k(
    job: &[u8],
    constant: [Sums; 32],
    heads: &[f64],
    flows: &[f64],
    spare: &mut [f64],
) -> [Sums; 32]
    requires { (Lent job.now heads.now flows.now) × (constant ≡ constant_sums job.now)
        × (pipe_count (pipe_table job.now) * 4 ≤ length spare.old) }
    ensures { let end = pipe_count (pipe_table job.now) * 4 in
        (result ≡ node_sums job.now heads.now flows.now)
        × (KIn job.now heads.now flows.now spare.new)
        × (drop end spare.new ≡ drop end spare.old) }
{
    let mut sums = constant;
    for l in pipe_layout::each_pipe(job) {
        let start = l.start;
        let finish = l.finish;
        let at_start = node_sums::k_at_start(job, l, heads, flows);
        let at_finish = node_sums::k_at_finish(job, l, heads, flows);
        sums[start] = sums[start].with_k(at_start);
        sums[finish] = sums[finish].with_k(at_finish);
        let i = l.number * 4;
        spare[i + 1] = at_start;
        spare[i + 3] = at_finish;
    }
    sums
}

// The new head and flow at both ends of each pipe, from K in the spare; nodes has H of each node.
fn ends_from_k(job: &[u8], nodes: &[f64], spare: &mut [f64])
    requires { (Accepted job.now) × (32 ≤ length nodes.now)
        × (pipe_count (pipe_table job.now) * 4 ≤ length spare.old) }
    ensures { let end = pipe_count (pipe_table job.now) * 4 in
        (EndsByK job.now nodes.now spare.old spare.new)
        × (drop end spare.new ≡ drop end spare.old) }
{
    for l in pipe_layout::each_pipe(job) {
        spare_ends::pipe_ends(l, l.number, nodes, spare);
    }
}

// The new head and flow at both ends of each pipe into the spare, and the inflow of each node into `entering`; `nodes`
// holds the nodes' heads meanwhile. `values` has v of each node at the step, `constant` the sums of the nodes before any
// K.
pub fn write_ends(
    job: &[u8],
    values: &[f64],
    constant: [Sums; 32],
    heads: &[f64],
    flows: &[f64],
    nodes: &mut [f64],
    entering: &mut [f64],
    spare: &mut [f64],
)
    requires lent { (Lent job.now heads.now flows.now)
        × (constant ≡ constant_sums job.now) × (pipe_count (pipe_table job.now) * 4 ≤ length spare.old) }
    requires in_bounds { (32 ≤ length values.now) × (32 ≤ length nodes.old) × (32 ≤ length entering.old) }
    ensures { let end = pipe_count (pipe_table job.now) * 4 in
        let v = value_in values.now in
        (OverNodes job.now (inflow_at job.now v heads.now flows.now)
        entering.new)
        × (EndsIn job.now (end_nodes job.now v heads.now flows.now)
        heads.now flows.now spare.new)
        × (drop end spare.new ≡ drop end spare.old) }
{
    let sums = keep_k(job, constant, heads, flows, spare);
    node_heads::node_heads(job, values, sums, nodes, entering);
    ends_from_k(job, nodes, spare);
}

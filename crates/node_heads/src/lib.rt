// The nodes at a step, from their values and their sums: the head of each, as its pipe ends take it, and its inflow.
#![tactic(auto)]

ghost use Rattle.std.specs.Prelude.{◌≡◌, ◌≤◌, length};
ghost use Rattle.wave.specs.Nodes.{node_head, node_inflow};
ghost use Rattle.job.specs.Questions.{Accepted};
ghost use Rattle.node_sums.specs.FromRows.{pair_finite, for_ends, OverNodes, head_by, inflow_by};

use wave::{HeadInflow, Node, Sums};

// Whether the pair that a node would hold, with this inflow, is finite: only a pump's may fail to be.
fn pair_finite(n: Node, inflow: f64) -> bool
    ensures { result ≡ pair_finite n inflow }
{
    match n {
        Node::Junction(_) => true,
        Node::Reservoir(_) => true,
        Node::Valve(_, _, _) => true,
        Node::Pump(speed, _, _, _) => section::both_finite(speed, inflow),
    }
}

// H of a node as its ends take it, and its inflow. Where the pair is not finite H is plus infinity, so that the check
// stops at each end of the node.
fn for_ends(n: Node, sums: Sums) -> HeadInflow
    ensures { (result.head ≡ node_head (for_ends n sums) sums) × (result.inflow ≡ node_inflow n sums) }
{
    let solved = wave::solve_node(n, sums);
    let inflow = solved.inflow;
    if pair_finite(n, inflow) {
        return solved;
    }
    HeadInflow {
        head: wave::infinity(),
        inflow,
    }
}

// H of each node, as its ends take it, and its inflow, from its value and its sums.
pub fn node_heads(
    job: &[u8],
    values: &[f64],
    sums: [Sums; 32],
    heads: &mut [f64],
    inflows: &mut [f64],
)
    requires { (Accepted job.now) × (32 ≤ length values.now)
        × (32 ≤ length heads.old) × (32 ≤ length inflows.old) }
    ensures { (OverNodes job.now (head_by job.now values.now sums)
        heads.new)
        × (OverNodes job.now (inflow_by job.now values.now sums)
        inflows.new) }
{
    let nodes = job::tables::nodes(job);
    let n = nodes.len() / 26;
    for node in 0..n {
        let with_value = job::nodes::node_with(nodes, node, values[node]);
        let solved = for_ends(with_value, sums[node]);
        heads[node] = solved.head;
        inflows[node] = solved.inflow;
    }
}

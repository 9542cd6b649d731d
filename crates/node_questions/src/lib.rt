// Questions 10, 50, 53, 11 and 12: the table of nodes, the counts of their schedules, and the trips of the pumps.
#![tactic(auto)]

ghost use Rattle.std.specs.Prelude.{◌≡◌, true, ◌+◌, ◌*◌, ◌<◌, ◌≤◌, length};
ghost use Rattle.fields.specs.Bytes.{f64_at};
ghost use Rattle.fields.specs.Finite.{finite_at};
ghost use Rattle.job.specs.Format.{pipe_count, pipe_in, node_count};
ghost use Rattle.job.specs.Questions.{not_below_zero, kind_fits, kinds_fit, count_fits, each_count_fits, counts_fit};
ghost use Rattle.job.specs.Questions.{all_finite, has_no_figures, valve_fits, pump_fits};
ghost use Rattle.job.specs.Questions.{figures_fit_kind, figure_fits, figures_fit};
ghost use Rattle.job.specs.Questions.{ends_at, has_end, nodes_met, pair_questions, node_questions, first_no};
ghost use Rattle.job.specs.Refusals.{no_of};

use job::nodes::{NodeKind, UnknownKind, node_kind};
use job::questions::{Question, ask};
use job::schedules::{count_byte, long_count};

mod trips;

// 10, of a node: is the kind 0 to 3, and the byte at least 1 where it counts?
#[tactic(auto, unfolding(job::specs::Questions::kind_fits))]
fn kind_fits(nodes: &[u8], counts: &[u8], node: usize) -> bool
    requires { node < node_count nodes.now }
    ensures { result ≡ kind_fits nodes.now counts.now node }
{
    node_kind(nodes, node).is_ok() & ((counts.len() != 0) | (1 <= count_byte(nodes, node)))
}

// 10
fn kinds_fit(nodes: &[u8], counts: &[u8]) -> bool
    ensures { result ≡ kinds_fit nodes.now counts.now }
{
    (0..nodes.len() / 26).all(|node| kind_fits(nodes, counts, node))
}

// 50, of a node: is its count in table 6 at least 1, and the byte that it replaces zero?
fn count_fits(nodes: &[u8], counts: &[u8], node: usize) -> bool
    requires { (node < node_count nodes.now) × (node * 2 + 2 ≤ length counts.now) }
    ensures { result ≡ count_fits nodes.now counts.now node }
{
    let count = long_count(counts, node);
    let byte = count_byte(nodes, node);
    (1 <= count) & (byte == 0)
}

// 50, of each node
fn each_count_fits(nodes: &[u8], counts: &[u8]) -> bool
    requires { length counts.now ≡ node_count nodes.now * 2 }
    ensures { result ≡ each_count_fits nodes.now counts.now }
{
    (0..nodes.len() / 26).all(|node| count_fits(nodes, counts, node))
}

// 50: is table 6 empty, or two bytes for each node that fit?
fn counts_fit(nodes: &[u8], counts: &[u8]) -> bool
    ensures { result ≡ counts_fit nodes.now counts.now }
{
    if counts.len() == 0 {
        return true;
    }
    if counts.len() != nodes.len() / 26 * 2 {
        return false;
    }
    each_count_fits(nodes, counts)
}

// Is the f64 at a place, which is finite, not below zero? -0 is not.
fn not_below_zero(t: &[u8], at: usize) -> bool
    requires { (at + 8 ≤ length t.now) × (finite_at t.now at ≡ true) }
    ensures { result ≡ not_below_zero (f64_at t.now at) }
{
    !(fields::f64_at(t, at) < 0.0)
}

// 11 "Are a, b, c finite": of a node
fn all_finite(nodes: &[u8], node: usize) -> bool
    requires { node < node_count nodes.now }
    ensures { result ≡ all_finite nodes.now node }
{
    let at = node * 26;
    fields::finite_at(nodes, at + 2)
        & fields::finite_at(nodes, at + 10)
        & fields::finite_at(nodes, at + 18)
}

// Has a node no figures: are a, b and c all zero bits?
fn has_no_figures(nodes: &[u8], node: usize) -> bool
    requires { node < node_count nodes.now }
    ensures { result ≡ has_no_figures nodes.now node }
{
    let at = node * 26;
    fields::zero_bits_at(nodes, at + 2)
        & fields::zero_bits_at(nodes, at + 10)
        & fields::zero_bits_at(nodes, at + 18)
}

// What a valve asks of its figures.
fn valve_fits(nodes: &[u8], node: usize) -> bool
    requires { (node < node_count nodes.now) × (all_finite nodes.now node ≡ true) }
    ensures { result ≡ valve_fits nodes.now node }
{
    let at = node * 26;
    not_below_zero(nodes, at + 2) & fields::zero_bits_at(nodes, at + 18)
}

// What a pump asks of its figures.
fn pump_fits(nodes: &[u8], node: usize) -> bool
    requires { (node < node_count nodes.now) × (all_finite nodes.now node ≡ true) }
    ensures { result ≡ pump_fits nodes.now node }
{
    let at = node * 26;
    not_below_zero(nodes, at + 2) & not_below_zero(nodes, at + 10)
}

// What a node's kind asks of its figures.
#[tactic(auto, unfolding(job::specs::Questions::figures_fit_kind))]
fn figures_fit_kind(nodes: &[u8], node: usize) -> bool
    requires { (node < node_count nodes.now) × (all_finite nodes.now node ≡ true) }
    ensures { result ≡ figures_fit_kind nodes.now node }
{
    match node_kind(nodes, node) {
        Ok(NodeKind::Valve) => valve_fits(nodes, node),
        Ok(NodeKind::Pump) => pump_fits(nodes, node),
        Ok(NodeKind::Junction | NodeKind::Reservoir) | Err(UnknownKind) => has_no_figures(
            nodes, node,
        ),
    }
}

// 11, of a node
fn figure_fits(nodes: &[u8], node: usize) -> bool
    requires { node < node_count nodes.now }
    ensures { result ≡ figure_fits nodes.now node }
{
    if all_finite(nodes, node) {
        figures_fit_kind(nodes, node)
    } else {
        false
    }
}

// 11
fn figures_fit(nodes: &[u8]) -> bool
    ensures { result ≡ figures_fit nodes.now }
{
    (0..nodes.len() / 26).all(|node| figure_fits(nodes, node))
}

// Has pipe p an end at the node?
fn ends_at(pipes: &[u8], node: usize, p: usize) -> bool
    requires { p < pipe_count pipes.now }
    ensures { result ≡ ends_at node (pipe_in pipes.now p) }
{
    (job::pipes::start(pipes, p) == node) | (job::pipes::finish(pipes, p) == node)
}

// 12, of a node: has it a pipe end?
fn has_end(pipes: &[u8], node: usize) -> bool
    ensures { result ≡ has_end pipes.now node }
{
    (0..pipes.len() / 12).any(|p| ends_at(pipes, node, p))
}

// 12
fn nodes_met(pipes: &[u8], count: usize) -> bool
    ensures { result ≡ nodes_met pipes.now count }
{
    (0..count).all(|node| has_end(pipes, node))
}

// Questions 10, 50, 53, 11 and 12.
#[tactic(auto, unfolding(job::specs::Questions::node_questions, job::specs::Questions::first_no))]
pub fn ask_all(job: &[u8]) -> Result<(), Question>
    requires { first_no pair_questions job.now ≡ 0 }
    ensures { no_of result ≡ first_no node_questions job.now }
{
    let pipes = job::tables::pipes(job);
    let nodes = job::tables::nodes(job);
    let counts = job::tables::counts(job);
    let trips = job::tables::trips(job);
    ask(kinds_fit(nodes, counts), Question::NodeKinds)?;
    ask(counts_fit(nodes, counts), Question::ScheduleCounts)?;
    ask(trips::trips_fit(nodes, trips), Question::Trips)?;
    ask(figures_fit(nodes), Question::NodeFigures)?;
    ask(nodes_met(pipes, nodes.len() / 26), Question::NodesMet)
}

// Questions 13 to 15: the tables of f64 numbers.
#![tactic(auto)]

ghost use Rattle.std.specs.Prelude.{◌≡◌, true, ◌+◌, ◌*◌, ◌<◌, ◌≤◌, length, eqb};
ghost use Rattle.loops.specs.Loops.{all_below};
ghost use Rattle.job.specs.Format.{node_count, kind_number, entry_in};
ghost use Rattle.job.specs.Questions.{friction_fits, friction_right, initial_fits, initial_right};
ghost use Rattle.job.specs.Questions.{counts_fit, entry_fits, schedules_right};
ghost use Rattle.job.specs.Questions.{pair_questions, node_questions, value_questions, first_no};
ghost use Rattle.job.specs.Refusals.{no_of};
ghost use Rattle.job.specs.QuestionParts.{numbers_finite, each_finite, none_below_zero};
ghost use Rattle.job.specs.QuestionParts.{sections_finite, none_below_floor, from0_to1};

use job::nodes::{NodeKind, UnknownKind, node_kind};
use job::questions::{Question, ask};
use job::schedules::schedule_count;

// How many of n numbers of a table, from number `first` on, are not finite. They are counted, here and below, so
// that the loop has no branch.
fn not_finite(bytes: &[u8], first: usize, n: usize) -> u64
    requires { (first + n) * 8 ≤ length bytes.now }
    ensures { eqb result 0 ≡ numbers_finite bytes.now first n }
{
    let mut bad: u64 = 0;
    for k in 0..n {
        bad += fields::not_finite_at(bytes, (first + k) * 8);
    }
    bad
}

// How many R are below zero, where each is finite.
fn below_zero(friction: &[u8]) -> u64
    requires { each_finite friction.now ≡ true }
    ensures { eqb result 0 ≡ none_below_zero friction.now }
{
    let n = friction.len() / 8;
    let mut low: u64 = 0;
    for r in 0..n {
        let fits = !(fields::f64_at(friction, r * 8) < 0.0);
        low += u64::from(!fits);
    }
    low
}

// 13, of each reach: is R finite and not below zero?
fn friction_fits(friction: &[u8]) -> bool
    ensures { result ≡ friction_fits friction.now }
{
    if not_finite(friction, 0, friction.len() / 8) != 0 {
        return false;
    }
    below_zero(friction) == 0
}

// 13
fn friction_right(pipes: &[u8], friction: &[u8]) -> bool
    requires { length pipes.now ≤ 32768 }
    ensures { result ≡ friction_right pipes.now friction.now }
{
    let all = job::pipes::ends(pipes);
    (friction.len() == all.reach * 8) & friction_fits(friction)
}

// How many heads are below their floors, where all are finite.
fn below_floor(initial: &[u8]) -> u64
    requires { sections_finite initial.now ≡ true }
    ensures { eqb result 0 ≡ none_below_floor initial.now }
{
    let n = initial.len() / 24;
    let mut low: u64 = 0;
    for s in 0..n {
        let at = s * 24;
        let fits = !(fields::f64_at(initial, at) < fields::f64_at(initial, at + 16));
        low += u64::from(!fits);
    }
    low
}

// 14, of each section: is all finite, and no head below its floor? A section has three numbers.
fn initial_fits(initial: &[u8]) -> bool
    ensures { result ≡ initial_fits initial.now }
{
    let n = initial.len() / 24;
    if not_finite(initial, 0, n * 3) != 0 {
        return false;
    }
    below_floor(initial) == 0
}

// 14
fn initial_right(pipes: &[u8], initial: &[u8]) -> bool
    requires { length pipes.now ≤ 32768 }
    ensures { result ≡ initial_right pipes.now initial.now }
{
    (initial.len() == job::pipes::section_count(pipes) * 24) & initial_fits(initial)
}

// How many of the `count` entries from `place` on are below 0 or above 1, where all are finite.
fn out_of_range(schedules: &[u8], place: usize, count: usize) -> u64
    requires { ((place + count) * 8 ≤ length schedules.now) × (numbers_finite schedules.now place count ≡ true) }
    ensures { eqb result 0 ≡ all_below (λ i. from0_to1 (entry_in schedules.now (place + i))) count }
{
    let mut out: u64 = 0;
    for i in 0..count {
        let v = fields::f64_at(schedules, (place + i) * 8);
        let fits = !(v < 0.0) & !(1.0 < v);
        out += u64::from(!fits);
    }
    out
}

// 15, of the `count` entries from `place` on, of a node: is each finite and in the range of the node's kind?
fn schedule_fits(nodes: &[u8], schedules: &[u8], node: usize, place: usize, count: usize) -> bool
    requires { (node < node_count nodes.now) × ((place + count) * 8 ≤ length schedules.now) }
    ensures { result ≡ all_below
        (λ i. entry_fits (kind_number nodes.now node) (entry_in schedules.now (place + i))) count }
{
    if not_finite(schedules, place, count) != 0 {
        return false;
    }
    match node_kind(nodes, node) {
        Ok(NodeKind::Junction | NodeKind::Reservoir) => true,
        Ok(NodeKind::Valve | NodeKind::Pump) | Err(UnknownKind) => {
            out_of_range(schedules, place, count) == 0
        }
    }
}

// 15. The place of a node's schedule, the sum of the counts before it, is carried along. Entries are read only where
// their schedule ends within the table; where it does not, the table is too short to hold all schedules.
fn schedules_right(nodes: &[u8], counts: &[u8], schedules: &[u8]) -> bool
    requires { (length nodes.now ≤ 32768) × (counts_fit nodes.now counts.now ≡ true) }
    ensures { result ≡ schedules_right nodes.now counts.now schedules.now }
{
    let n = nodes.len() / 26;
    let mut place = 0;
    for node in 0..n {
        let count = schedule_count(nodes, counts, node);
        let next = place + count;
        if schedules.len() < next * 8 {
            return false;
        }
        if !schedule_fits(nodes, schedules, node, place, count) {
            return false;
        }
        place = next;
    }
    schedules.len() == place * 8
}

// Questions 13 to 15. Question 50 has let the counts pass.
#[tactic(auto, unfolding(job::specs::Questions::value_questions, job::specs::Questions::first_no), using(job::proofs::TableBounds::pairs_right, job::proofs::TableBounds::table_short, job::proofs::Accepted::counts_asked))]
pub fn ask_all(job: &[u8]) -> Result<(), Question>
    requires { (first_no pair_questions job.now ≡ 0) × (first_no node_questions job.now ≡ 0) }
    ensures { no_of result ≡ first_no value_questions job.now }
{
    let pipes = job::tables::pipes(job);
    let nodes = job::tables::nodes(job);
    let friction = job::tables::friction(job);
    let initial = job::tables::initial(job);
    let schedules = job::tables::schedules(job);
    let counts = job::tables::counts(job);
    ask(friction_right(pipes, friction), Question::Friction)?;
    ask(initial_right(pipes, initial), Question::InitialState)?;
    ask(
        schedules_right(nodes, counts, schedules),
        Question::Schedules,
    )
}

// Question 53: the table of trips.
ghost use Rattle.std.specs.Prelude.{◌≡◌, not, ◌+◌, ◌<◌, ◌≤◌, eqb, length};
ghost use Rattle.fields.specs.Bytes.{f64_at};
ghost use Rattle.loops.specs.Loops.{all_below};
ghost use Rattle.job.specs.Format.{trip_count, trip_in};
ghost use Rattle.job.specs.Questions.{finite_not_below_zero, is_pump, first_of_node};
ghost use Rattle.job.specs.Questions.{rundown_fits, trip_fits, trips_fit};

use job::nodes::{NodeKind, UnknownKind, node_kind};
use job::trips::node_of;

// Is node y there, and a pump?
#[tactic(auto, unfolding(job::specs::Questions::is_pump))]
fn is_pump(nodes: &[u8], y: usize) -> bool
    ensures { result ≡ is_pump nodes.now y }
{
    if nodes.len() / 26 <= y {
        return false;
    }
    match node_kind(nodes, y) {
        Ok(NodeKind::Pump) => true,
        Ok(NodeKind::Junction | NodeKind::Reservoir | NodeKind::Valve) => false,
        Err(UnknownKind) => false,
    }
}

// Do records k and i name different nodes?
fn nodes_differ(trips: &[u8], k: usize, i: usize) -> bool
    requires { (k < trip_count trips.now) × (i < trip_count trips.now) }
    ensures { result ≡ not (eqb (trip_in trips.now k).node (trip_in trips.now i).node) }
{
    node_of(trips, k) != node_of(trips, i)
}

// Does no record before record i name its node?
fn first_of_node(trips: &[u8], i: usize) -> bool
    requires { i < trip_count trips.now }
    ensures { result ≡ first_of_node trips.now i }
{
    (0..i).all(|k| nodes_differ(trips, k, i))
}

// Is the f64 at a place finite and not below zero?
fn constant_fits(t: &[u8], at: usize) -> bool
    requires { at + 8 ≤ length t.now }
    ensures { result ≡ finite_not_below_zero (f64_at t.now at) }
{
    if fields::finite_at(t, at) {
        super::not_below_zero(t, at)
    } else {
        false
    }
}

// Are G, t0 and t1 of record i finite and not below zero?
fn rundown_fits(trips: &[u8], i: usize) -> bool
    requires { i < trip_count trips.now }
    ensures { result ≡ rundown_fits (trip_in trips.now i) }
{
    let at = i * 30;
    constant_fits(trips, at + 6) & constant_fits(trips, at + 14) & constant_fits(trips, at + 22)
}

// 53, of record i
fn trip_fits(nodes: &[u8], trips: &[u8], i: usize) -> bool
    requires { i < trip_count trips.now }
    ensures { result ≡ trip_fits nodes.now trips.now i }
{
    is_pump(nodes, node_of(trips, i)) & first_of_node(trips, i) & rundown_fits(trips, i)
}

// 53, of each record
fn each_trip_fits(nodes: &[u8], trips: &[u8]) -> bool
    ensures { result ≡ all_below (trip_fits nodes.now trips.now)
        (trip_count trips.now) }
{
    (0..trips.len() / 30).all(|i| trip_fits(nodes, trips, i))
}

// 53
pub fn trips_fit(nodes: &[u8], trips: &[u8]) -> bool
    ensures { result ≡ trips_fit nodes.now trips.now }
{
    (trips.len() % 30 == 0) & each_trip_fits(nodes, trips)
}

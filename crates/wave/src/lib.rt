// The wave equations along a reach, and the nodes. Each function equals its definition in specs/ bit for bit:
// most proofs only open the definitions that the function's attribute names.
#![tactic(auto)]

ghost use Rattle.std.specs.Prelude.{◌≡◌};
ghost use Rattle.fields.specs.Real.{infinity64};
ghost use Rattle.wave.specs.Wave as wave;
ghost use Rattle.wave.specs.Nodes as nodes;
ghost use Rattle.wave.specs.Adding as adding;

// A node's sums over its pipe ends: b of K and t of S (B and T of document 01).
#[derive(Clone, Copy)]
pub struct Sums {
    pub b: f64,
    pub t: f64,
}

// Head and flow at a section.
#[derive(Clone, Copy)]
pub struct HeadFlow {
    pub head: f64,
    pub flow: f64,
}

// What a step works out for a node: its head, and what a pump lets in, which is +0 at other kinds.
#[derive(Clone, Copy)]
pub struct HeadInflow {
    pub head: f64,
    pub inflow: f64,
}

// A node at a step, carrying its value at the step first and then its own figures.
#[derive(Clone, Copy)]
pub enum Node {
    // draw-off
    Junction(f64),
    // level
    Reservoir(f64),
    // opening; a, b
    Valve(f64, f64, f64),
    // speed; a, b, c
    Pump(f64, f64, f64, f64),
}

// ---- the wave equations

// |x|; of -0 it is -0, unlike `abs`.
#[tactic(auto, unfolding(crate::specs::Wave::magnitude))]
pub fn magnitude(x: f64) -> f64
    ensures { result ≡ wave.magnitude x }
{
    if x < 0.0 { -x } else { x }
}

// CP: along the reach from the section above, whose old head and flow are h and q.
#[tactic(auto, unfolding(crate::specs::Wave::from_above))]
pub fn from_above(s: f64, r: f64, h: f64, q: f64) -> f64
    ensures { result ≡ wave.from_above s r h q }
{
    let z = magnitude(q);
    (q + s * h) - (r * q) * z
}

// CM: along the reach from the section below.
#[tactic(auto, unfolding(crate::specs::Wave::from_below))]
pub fn from_below(s: f64, r: f64, h: f64, q: f64) -> f64
    ensures { result ≡ wave.from_below s r h q }
{
    let z = magnitude(q);
    (q - s * h) - (r * q) * z
}

// An inner section.
#[tactic(auto, unfolding(crate::specs::Wave::inner))]
pub fn inner(s: f64, cp: f64, cm: f64) -> HeadFlow
    ensures { result ≡ wave.inner s cp cm }
{
    HeadFlow {
        head: (cp - cm) / (s + s),
        flow: (cp + cm) / 2.0,
    }
}

// K at a pipe's finish and at its start, by the section next to it.
#[tactic(auto, unfolding(crate::specs::Wave::finish_k))]
pub fn finish_k(s: f64, r: f64, h: f64, q: f64) -> f64
    ensures { result ≡ wave.finish_k s r h q }
{
    from_above(s, r, h, q)
}

#[tactic(auto, unfolding(crate::specs::Wave::start_k))]
pub fn start_k(s: f64, r: f64, h: f64, q: f64) -> f64
    ensures { result ≡ wave.start_k s r h q }
{
    -from_below(s, r, h, q)
}

// The end of a pipe at its finish and at its start, where the node's head is h.
#[tactic(auto, unfolding(crate::specs::Wave::finish_end))]
pub fn finish_end(s: f64, k: f64, h: f64) -> HeadFlow
    ensures { result ≡ wave.finish_end s k h }
{
    HeadFlow {
        head: h,
        flow: k - s * h,
    }
}

#[tactic(auto, unfolding(crate::specs::Wave::start_end))]
pub fn start_end(s: f64, k: f64, h: f64) -> HeadFlow
    ensures { result ≡ wave.start_end s k h }
{
    HeadFlow {
        head: h,
        flow: s * h - k,
    }
}

impl Sums {
    // The sums before any end; no derived `Default`, so that the contract says that they are +0.
    #[tactic(auto, unfolding(crate::specs::Adding::no_sums))]
    pub fn none() -> Self
        ensures { result ≡ adding.no_sums }
    {
        Self { b: 0.0, t: 0.0 }
    }

    // The sums with K, and with S, of one more end.
    #[tactic(auto, unfolding(crate::specs::Adding::with_k))]
    pub fn with_k(self, k: f64) -> Self
        ensures { result ≡ adding.with_k self k }
    {
        Self {
            b: self.b + k,
            ..self
        }
    }

    #[tactic(auto, unfolding(crate::specs::Adding::with_s))]
    pub fn with_s(self, s: f64) -> Self
        ensures { result ≡ adding.with_s self s }
    {
        Self {
            t: self.t + s,
            ..self
        }
    }
}

// ---- the nodes: q is what flows through a valve or a pump, and none where the argument of its root is not finite

// q of an opening into open air, by w and y: nothing comes back, and a root that is not taken is not judged.
fn orifice_flow(w: f64, y: f64) -> Option<f64>
    ensures { result ≡ nodes.orifice_flow w y }
{
    if !(y > 0.0) || w == 0.0 {
        return Some(0.0);
    }
    let g = w * w + 4.0 * (w * y);
    if fields::is_finite(g) {
        Some(((y + y) * w) / (w + root::root_of(g)))
    } else {
        None
    }
}

// q of a valve.
#[tactic(auto, unfolding(crate::specs::Nodes::valve_flow, crate::specs::Nodes::valve_w, crate::specs::Nodes::valve_y))]
fn valve_flow(opening: f64, a: f64, b: f64, sums: Sums) -> Option<f64>
    ensures { result ≡ nodes.valve_flow opening a b sums }
{
    let w = ((opening * a) * (opening * a)) / sums.t;
    let y = sums.b - sums.t * b;
    orifice_flow(w, y)
}

// q of a pump, by y; t is T.
fn lift_flow(b: f64, t: f64, y: f64) -> Option<f64>
    ensures { result ≡ nodes.lift_flow b t y }
{
    if y > 0.0 {
        let g = 1.0 + 4.0 * ((b * t) * y);
        if fields::is_finite(g) {
            Some((y + y) / (1.0 + root::root_of(g)))
        } else {
            None
        }
    } else {
        Some(0.0)
    }
}

// q of a pump.
#[tactic(auto, unfolding(crate::specs::Nodes::pump_flow, crate::specs::Nodes::pump_h, crate::specs::Nodes::pump_y))]
fn pump_flow(speed: f64, a: f64, b: f64, c: f64, sums: Sums) -> Option<f64>
    ensures { result ≡ nodes.pump_flow speed a b c sums }
{
    let h = c + (speed * speed) * a;
    let y = sums.t * h - sums.b;
    lift_flow(b, sums.t, y)
}

// Plus infinity.
pub fn infinity() -> f64
    ensures { result ≡ infinity64 }
{
    f64::INFINITY
}

impl Sums {
    // The head of a node out of which q flows, and of one into which it flows.
    #[tactic(auto, unfolding(crate::specs::Nodes::head_less))]
    fn head_less(self, q: Option<f64>) -> f64
        ensures { result ≡ nodes.head_less q self }
    {
        q.map_or(infinity(), |q| (self.b - q) / self.t)
    }

    #[tactic(auto, unfolding(crate::specs::Nodes::head_more))]
    fn head_more(self, q: Option<f64>) -> f64
        ensures { result ≡ nodes.head_more q self }
    {
        q.map_or(infinity(), |q| (self.b + q) / self.t)
    }

    // The head h, and plus infinity where a sum is not finite.
    #[tactic(auto, unfolding(crate::specs::Nodes::judged))]
    fn judged(self, h: f64) -> f64
        ensures { result ≡ nodes.judged self h }
    {
        if fields::is_finite(self.b) && fields::is_finite(self.t) {
            h
        } else {
            infinity()
        }
    }
}

// The inflow of a pump whose q this is: plus infinity where it has none, as its head is then.
#[tactic(auto, unfolding(crate::specs::Nodes::inflow_of))]
fn inflow_of(q: Option<f64>) -> f64
    ensures { result ≡ nodes.inflow_of q }
{
    q.unwrap_or(infinity())
}

// The node solver: H of a node, by its kind, judged for every kind; and its inflow.
#[tactic(auto, unfolding(crate::specs::Nodes::node_head, crate::specs::Nodes::node_inflow))]
pub fn solve_node(n: Node, sums: Sums) -> HeadInflow
    ensures { (result.head ≡ nodes.node_head n sums) × (result.inflow ≡ nodes.node_inflow n sums) }
{
    match n {
        Node::Junction(draw) => {
            let head = sums.judged((sums.b - draw) / sums.t);
            HeadInflow { head, inflow: 0.0 }
        }
        Node::Reservoir(level) => {
            let head = sums.judged(level);
            HeadInflow { head, inflow: 0.0 }
        }
        Node::Valve(opening, a, b) => {
            let q = valve_flow(opening, a, b, sums);
            let head = sums.judged(sums.head_less(q));
            HeadInflow { head, inflow: 0.0 }
        }
        Node::Pump(speed, a, b, c) => {
            let q = pump_flow(speed, a, b, c, sums);
            let head = sums.judged(sums.head_more(q));
            HeadInflow {
                head,
                inflow: inflow_of(q),
            }
        }
    }
}

// The speed of a pump that has lost its power, by the constants of its rundown, its old speed and its old inflow.
#[tactic(auto, unfolding(crate::specs::Nodes::rundown))]
pub fn rundown(g: f64, t0: f64, t1: f64, speed: f64, inflow: f64) -> f64
    ensures { result ≡ nodes.rundown g t0 t1 speed inflow }
{
    let next = speed - g * ((t0 * speed) * speed + (t1 * speed) * inflow);
    if next < 0.0 { 0.0 } else { next }
}

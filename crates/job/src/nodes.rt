// The table of nodes.
ghost use Rattle.std.specs.Prelude.{◌≡◌, true, ◌<◌};
ghost use Rattle.job.specs.Job.{with_value};
ghost use Rattle.job.specs.Format.{node_count, kind_number, kind_in};
ghost use Rattle.job.specs.NodeKinds.{Names};
ghost use Rattle.job.specs.Questions.{figures_fit};

use wave::Node;

// A kind of node. Of a kind that is added each `match` on the kinds asks for its case.
#[derive(Clone, Copy, PartialEq, Eq)]
pub enum NodeKind {
    Junction,
    Reservoir,
    Valve,
    Pump,
}

// A number that stands for no kind.
#[derive(Clone, Copy, PartialEq, Eq)]
pub struct UnknownKind;

impl TryFrom<u8> for NodeKind {
    type Error = UnknownKind;

    ghost try_from_gives = { Names };

    fn try_from(number: u8) -> Result<Self, UnknownKind> {
        match number {
            0 => Ok(NodeKind::Junction),
            1 => Ok(NodeKind::Reservoir),
            2 => Ok(NodeKind::Valve),
            3 => Ok(NodeKind::Pump),
            _ => Err(UnknownKind),
        }
    }
}

// The number of a node's kind, whether or not it stands for one.
pub fn kind(nodes: &[u8], node: usize) -> usize
    requires { node < node_count nodes.now }
    ensures { (result ≡ kind_number nodes.now node) × (result < 256) }
{
    usize::from(nodes[node * 26])
}

// A node's kind, by its number.
pub fn node_kind(nodes: &[u8], node: usize) -> Result<NodeKind, UnknownKind>
    requires { node < node_count nodes.now }
    ensures { Names (kind_number nodes.now node) result }
{
    NodeKind::try_from(nodes[node * 26])
}

// A node with its figures and the value v. A number that stands for no kind is taken for a pump's, as `kind_in` takes
// it.
#[tactic(auto, unfolding(crate::specs::Job::with_value, crate::specs::Format::kind_in))]
pub fn node_with(nodes: &[u8], node: usize, v: f64) -> Node
    requires { (figures_fit nodes.now ≡ true) × (node < node_count nodes.now) }
    ensures { result ≡ with_value (kind_in nodes.now node) v }
{
    let at = node * 26;
    match node_kind(nodes, node) {
        Ok(NodeKind::Junction) => Node::Junction(v),
        Ok(NodeKind::Reservoir) => Node::Reservoir(v),
        Ok(NodeKind::Valve) => Node::Valve(
            v,
            fields::f64_at(nodes, at + 2),
            fields::f64_at(nodes, at + 10),
        ),
        Ok(NodeKind::Pump) | Err(UnknownKind) => Node::Pump(
            v,
            fields::f64_at(nodes, at + 2),
            fields::f64_at(nodes, at + 10),
            fields::f64_at(nodes, at + 18),
        ),
    }
}

// The ends of one pipe in the spare, which has four numbers a pipe: the new head and flow at its start, and those at
// its finish.
#![tactic(auto)]

ghost use Rattle.std.specs.Prelude.{◌≡◌, ◌+◌, ◌*◌, ◌<◌, ◌≤◌, length};
ghost use Rattle.pipe_layout.specs.Layout.{laid_of};
ghost use Rattle.spare_ends.specs.Spare.{end_in, start_by, finish_by, with_ends};

use pipe_layout::Laid;
use wave::HeadFlow;

// The head and flow that stand at a place.
pub fn end_at(spare: &[f64], at: usize) -> HeadFlow
    requires { at + 1 < length spare.now }
    ensures { result ≡ end_in spare.now at }
{
    HeadFlow {
        head: spare[at],
        flow: spare[at + 1],
    }
}

// The new head and flow at both ends of pipe p, which is l, from K in the spare; nodes has H of each node.
pub fn pipe_ends(l: Laid, p: usize, nodes: &[f64], spare: &mut [f64])
    requires { (l.start < length nodes.now) × (l.finish < length nodes.now)
        × (p * 4 + 4 ≤ length spare.old) }
    ensures { spare.new ≡ with_ends spare.old (p * 4)
        (start_by nodes.now spare.old p (laid_of l))
        (finish_by nodes.now spare.old p (laid_of l)) }
{
    let at = p * 4;
    let a = l.start;
    let b = l.finish;
    let start = wave::start_end(l.s, spare[at + 1], nodes[a]);
    let finish = wave::finish_end(l.s, spare[at + 3], nodes[b]);
    spare[at] = start.head;
    spare[at + 1] = start.flow;
    spare[at + 2] = finish.head;
    spare[at + 3] = finish.flow;
}

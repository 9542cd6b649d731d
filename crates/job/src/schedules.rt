// The schedules: how many entries a node's has, and the value at a step. Apart from questions 10 and 50, nothing above
// this module asks whether a byte or table 6 counts the entries. Where a schedule begins, whoever walks the nodes
// carries along.
ghost use Rattle.std.specs.Prelude.{◌≡◌, true, ◌+◌, ◌-◌, ◌*◌, ◌<◌, ◌≤◌, min, length};
ghost use Rattle.job.specs.Job.{entry_at};
ghost use Rattle.job.specs.Format.{node_count, count_byte, long_count, schedule_count, entries_from};
ghost use Rattle.job.specs.Questions.{counts_fit};
ghost use Rattle.job.specs.QuestionParts.{numbers_finite};

// The byte in a node's record that counts its entries where table 6 is empty.
pub fn count_byte(nodes: &[u8], node: usize) -> usize
    requires { node < node_count nodes.now }
    ensures { (result ≡ count_byte nodes.now node) × (result < 256) }
{
    usize::from(nodes[node * 26 + 1])
}

// The count that table 6 holds for a node.
pub fn long_count(counts: &[u8], node: usize) -> usize
    requires { node * 2 + 2 ≤ length counts.now }
    ensures { (result ≡ long_count counts.now node) × (result < 65536) }
{
    fields::u16_at(counts, node * 2)
}

// The number of entries in a node's schedule.
pub fn schedule_count(nodes: &[u8], counts: &[u8], node: usize) -> usize
    requires { (node < node_count nodes.now) × (counts_fit nodes.now counts.now ≡ true) }
    ensures { (result ≡ schedule_count nodes.now counts.now node) × (result < 65536) }
{
    if counts.len() == 0 {
        count_byte(nodes, node)
    } else {
        long_count(counts, node)
    }
}

// The number, from 0, of the entry that is read at a step, from 1, in a schedule of `count` entries.
fn entry_index(count: usize, step: usize) -> usize
    requires { (1 ≤ count) × (1 ≤ step) }
    ensures { result ≡ min step count - 1 }
{
    if step < count { step - 1 } else { count - 1 }
}

// v at a step, counted from 1, of the schedule of `count` entries that begins at `place`: entry n at step n, and the
// last after it.
pub fn value_at(schedules: &[u8], place: usize, count: usize, step: usize) -> f64
    requires { (1 ≤ count) × (1 ≤ step) × ((place + count) * 8 ≤ length schedules.now)
        × (numbers_finite schedules.now place count ≡ true) }
    ensures { result ≡ entry_at (entries_from schedules.now place count) step }
{
    let entry = place + entry_index(count, step);
    fields::f64_at(schedules, entry * 8)
}

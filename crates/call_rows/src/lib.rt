// What a call writes in the rows besides its steps: the initial state of the sections and of the nodes, and +0 in the
// spare.
#![tactic(auto)]

ghost use Rattle.std.specs.Prelude.{◌≡◌, true, ℕ, ◌*◌, ◌≤◌, length, Float};
ghost use Rattle.fields.specs.Real.{zero64};
ghost use Rattle.loops.specs.Fill.{fill};
ghost use Rattle.job.specs.Job.{sections, initial_at};
ghost use Rattle.job.specs.Format.{job_of, pipe_table, node_table, pipe_count, node_count};
ghost use Rattle.job.specs.TableEntries.{initial_of};
ghost use Rattle.job.specs.Questions.{Accepted, initial_fits};
ghost use Rattle.recurrence.specs.State.{start_drive};

// The initial heads and flows of table 4 into the rows of heads and flows, and the heads into both envelopes.
fn write_initial(
    initial: &[u8],
    n: usize,
    heads: &mut [f64],
    flows: &mut [f64],
    highest: &mut [f64],
    lowest: &mut [f64],
)
    requires initial_value { (initial_fits initial.now ≡ true) × (n * 24 ≤ length initial.now) }
    requires n_in_bounds { (n ≤ length heads.old) × (n ≤ length flows.old)
        × (n ≤ length highest.old) × (n ≤ length lowest.old) }
    ensures { (let head : ℕ → Float = λ s. (initial_of initial.now s).head in
        let flow : ℕ → Float = λ s. (initial_of initial.now s).flow in
        (heads.new ≡ fill head heads.old 0 n)
        × (flows.new ≡ fill flow flows.old 0 n)
        × (highest.new ≡ fill head highest.old 0 n)
        × (lowest.new ≡ fill head lowest.old 0 n)) }
{
    for s in 0..n {
        let head = job::values::head_at(initial, s);
        let flow = job::values::flow_at(initial, s);
        heads[s] = head;
        flows[s] = flow;
        highest[s] = head;
        lowest[s] = head;
    }
}

// The initial heads and flows, and both envelopes as the initial heads.
pub fn write_start(
    job: &[u8],
    n: usize,
    heads: &mut [f64],
    flows: &mut [f64],
    highest: &mut [f64],
    lowest: &mut [f64],
)
    requires accepted { (Accepted job.now) × (n ≡ sections (job_of job.now)) }
    requires n_in_bounds { (n ≤ length heads.old) × (n ≤ length flows.old)
        × (n ≤ length highest.old) × (n ≤ length lowest.old) }
    ensures { (let head : ℕ → Float = λ s. (initial_at (job_of job.now) s).head in
        let flow : ℕ → Float = λ s. (initial_at (job_of job.now) s).flow in
        (heads.new ≡ fill head heads.old 0 n)
        × (flows.new ≡ fill flow flows.old 0 n)
        × (highest.new ≡ fill head highest.old 0 n)
        × (lowest.new ≡ fill head lowest.old 0 n)) }
{
    let initial = job::tables::initial(job);
    write_initial(initial, n, heads, flows, highest, lowest);
}

// The pair of each node at the start: of a pump its first scheduled speed and +0, of any other node +0 twice.
pub fn start_pairs(job: &[u8], speeds: &mut [f64], inflows: &mut [f64])
    requires accepted { Accepted job.now }
    requires job_in_bounds { (node_count (node_table job.now) ≤ length speeds.old)
        × (node_count (node_table job.now) ≤ length inflows.old) }
    ensures { let pair = start_drive (job_of job.now) in
        let n = node_count (node_table job.now) in
        (speeds.new ≡ fill (λ y. (pair y).speed) speeds.old 0 n)
        × (inflows.new ≡ fill (λ y. (pair y).inflow) inflows.old 0 n) }
{
    let mut values = [0.0f64; 32];
    let none = [0.0f64; 32];
    node_values::scheduled_at(job, 1, &mut values);
    node_values::write_pairs(job, &values, &none, speeds, inflows);
}

// The spare +0 in four entries a pipe.
pub fn clear_spare(job: &[u8], spare: &mut [f64])
    requires { (Accepted job.now) × (pipe_count (pipe_table job.now) * 4 ≤ length spare.old) }
    ensures { spare.new
        ≡ fill (λ (s : ℕ). zero64) spare.old 0 (pipe_count (pipe_table job.now) * 4) }
{
    let used = pipe_layout::pipe_count(job) * 4;
    section::clear_row(used, spare);
}

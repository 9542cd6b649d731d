// The heads of a chain from the level L and the flow Q: a pass that reads and judges, and one that writes.
#![tactic(auto)]

ghost use Rattle.std.specs.Prelude.{◌≡◌, true, ℕ, suc, ◌+◌, ◌/◌, ◌<◌, ◌≤◌, length, Float};
ghost use Rattle.loops.specs.Loops.{all_below};
ghost use Rattle.loops.specs.Fill.{fill};
ghost use Rattle.job.specs.Job.{sections, floor_at};
ghost use Rattle.job.specs.Format.{job_of};
ghost use Rattle.job.specs.TableEntries.{r_of, initial_of};
ghost use Rattle.job.specs.Questions.{Accepted, friction_fits, initial_fits};
ghost use Rattle.setting.specs.Setting.{head_after, head_along, head_fits, head_at, last_head};

use pipe_layout::Laid;

// The head that is carried on, and whether every head so far is finite and not below its floor. No Option of the head:
// `judge` tells the head past the last reach where one does not fit too, and `set_or_none` reckons with it.
#[derive(Clone, Copy)]
pub struct Judged {
    pub head: f64,
    pub fits: bool,
}

// The head a reach further on.
fn head_after(s: f64, r: f64, q: f64, h: f64) -> f64
    ensures { result ≡ head_after s r q h }
{
    let z = wave::magnitude(q);
    h - ((r * q) * z) / s
}

// The head past reach i of a pipe, from the head h before it.
fn head_past(friction: &[u8], l: Laid, i: usize, q: f64, h: f64) -> f64
    requires { (friction_fits friction.now ≡ true) × (l.first_reach + i < length friction.now / 8) }
    ensures { result ≡ head_after l.s (r_of friction.now (l.first_reach + i)) q h }
{
    let reach = l.first_reach + i;
    head_after(l.s, job::values::r_at(friction, reach), q, h)
}

// Whether a head at section s is finite and not below its floor.
fn head_fits(initial: &[u8], s: usize, h: f64) -> bool
    requires { (initial_fits initial.now ≡ true) × (s < length initial.now / 24) }
    ensures { result ≡ head_fits (initial_of initial.now s).floor h }
{
    let floor = section::floor_at(initial, s);
    fields::is_finite(h) & !(h < floor)
}

// Goes along a pipe that begins with the head h.
fn judge_pipe(friction: &[u8], initial: &[u8], l: Laid, q: f64, h: f64) -> Judged
    requires friction_value { (friction_fits friction.now ≡ true)
        × (l.first_reach + l.reaches ≤ length friction.now / 8) }
    requires initial_value { (initial_fits initial.now ≡ true)
        × (l.first_section + l.reaches < length initial.now / 24) }
    ensures { (let head : ℕ → Float =
        head_along l.s (λ (i : ℕ). r_of friction.now (l.first_reach + i)) q h in
        (result.head ≡ head l.reaches)
        × (result.fits ≡ all_below (λ (i : ℕ). head_fits (initial_of initial.now (l.first_section + i)).floor
        (head i)) (suc l.reaches))) }
{
    let mut head = h;
    let mut fits = true;
    for i in 0..l.reaches {
        let s = l.first_section + i;
        let next = head_past(friction, l, i, q, head);
        fits = fits & head_fits(initial, s, head);
        head = next;
    }
    let last = l.first_section + l.reaches;
    fits = fits & head_fits(initial, last, head);
    Judged { head, fits }
}

// Goes along all pipes, the head carried across the nodes: the last head, and whether every head is finite and not
// below its floor.
pub fn judge(job: &[u8], level: f64, q: f64) -> Judged
    requires { Accepted job.now }
    ensures { let j = job_of job.now in
        (result.head ≡ last_head j level q)
        × (result.fits ≡ all_below (λ (s : ℕ). head_fits (floor_at j s) (head_at j level q s)) (sections j)) }
{
    let friction = job::tables::friction(job);
    let initial = job::tables::initial(job);
    let mut head = level;
    let mut fits = true;
    for l in pipe_layout::each_pipe(job) {
        let judged = judge_pipe(friction, initial, l, q, head);
        head = judged.head;
        fits = fits & judged.fits;
    }
    Judged { head, fits }
}

// Writes the heads and the flow q along a pipe that begins with the head h. Answers the head with which it ends.
fn write_pipe(friction: &[u8], l: Laid, q: f64, h: f64, heads: &mut [f64], flows: &mut [f64]) -> f64
    requires friction_value { (friction_fits friction.now ≡ true)
        × (l.first_reach + l.reaches ≤ length friction.now / 8) }
    requires reaches_in_bounds { (l.first_section + l.reaches < length heads.old)
        × (l.first_section + l.reaches < length flows.old) }
    ensures { (let head : ℕ → Float =
        head_along l.s (λ (i : ℕ). r_of friction.now (l.first_reach + i)) q h in
        (result ≡ head l.reaches)
        × (heads.new ≡ fill head heads.old l.first_section (l.reaches + 1))
        × (flows.new ≡ fill (λ (i : ℕ). q) flows.old l.first_section (l.reaches + 1))) }
{
    let mut head = h;
    for i in 0..l.reaches {
        let s = l.first_section + i;
        let next = head_past(friction, l, i, q, head);
        heads[s] = head;
        flows[s] = q;
        head = next;
    }
    let last = l.first_section + l.reaches;
    heads[last] = head;
    flows[last] = q;
    head
}

// Writes the head of every section and the flow q.
pub fn write(job: &[u8], level: f64, q: f64, heads: &mut [f64], flows: &mut [f64])
    requires { (Accepted job.now) × (sections (job_of job.now) ≤ length heads.old)
        × (sections (job_of job.now) ≤ length flows.old) }
    ensures { let j = job_of job.now in
        (heads.new ≡ fill (head_at j level q) heads.old 0 (sections j))
        × (flows.new ≡ fill (λ (s : ℕ). q) flows.old 0 (sections j)) }
{
    let friction = job::tables::friction(job);
    let mut head = level;
    for l in pipe_layout::each_pipe(job) {
        head = write_pipe(friction, l, q, head, heads, flows);
    }
}

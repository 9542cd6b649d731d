// The tables of f64 numbers: friction, and heads, flows and floors.
ghost use Rattle.std.specs.Prelude.{◌≡◌, true, ◌/◌, ◌<◌, length};
ghost use Rattle.job.specs.TableEntries.{r_of, initial_of};
ghost use Rattle.job.specs.Questions.{friction_fits, initial_fits};

// R of reach r.
pub fn r_at(friction: &[u8], r: usize) -> f64
    requires { (friction_fits friction.now ≡ true) × (r < length friction.now / 8) }
    ensures { result ≡ r_of friction.now r }
{
    fields::f64_at(friction, r * 8)
}

// The initial head, the initial flow and the floor head of section s.
pub fn head_at(initial: &[u8], s: usize) -> f64
    requires { (initial_fits initial.now ≡ true) × (s < length initial.now / 24) }
    ensures { result ≡ (initial_of initial.now s).head }
{
    fields::f64_at(initial, s * 24)
}

pub fn flow_at(initial: &[u8], s: usize) -> f64
    requires { (initial_fits initial.now ≡ true) × (s < length initial.now / 24) }
    ensures { result ≡ (initial_of initial.now s).flow }
{
    fields::f64_at(initial, s * 24 + 8)
}

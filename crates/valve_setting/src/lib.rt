// The valve of a chain, set for a discharge.
#![tactic(auto)]

ghost use Rattle.std.specs.Prelude.{◌≡◌, true, ◌≤◌, length};
ghost use Rattle.job.specs.Job.{sections};
ghost use Rattle.job.specs.Format.{job_of};
ghost use Rattle.job.specs.Questions.{Accepted};
ghost use Rattle.chain.specs.Chain.{is_chain};
ghost use Rattle.setting.specs.Setting.{outlet_head, coefficient_for, is_chain_with};
ghost use Rattle.setting.specs.Setting.{set_or_none, set_valve};
ghost use Rattle.valve_setting.specs.Answers.{leaves};

use job::questions::{Question, ask};

// b of the valve at the end of a chain.
fn outlet_head(job: &[u8]) -> f64
    requires { (Accepted job.now) × (is_chain (job_of job.now) ≡ true) }
    ensures { result ≡ outlet_head (job_of job.now) }
{
    let nodes = job::tables::nodes(job);
    let last = pipe_layout::pipe_count(job);
    fields::f64_at(nodes, last * 26 + 10)
}

// The coefficient with which a valve lets out q at the head h into the head b.
fn coefficient_for(q: f64, h: f64, b: f64) -> f64
    ensures { result ≡ coefficient_for q h b }
{
    q / root::root_of(h - b)
}

// The valve of an accepted chain set, once 51 and 52 have a yes. Nothing is written before the verdict.
fn set_or_none(job: &[u8], level: f64, q: f64, heads: &mut [f64], flows: &mut [f64]) -> Option<f64>
    requires accepted { (Accepted job.now) × (is_chain (job_of job.now) ≡ true) }
    requires job_in_bounds { (sections (job_of job.now) ≤ length heads.old)
        × (sections (job_of job.now) ≤ length flows.old) }
    ensures { leaves heads flows (Ok result)
        ≡ set_or_none (job_of job.now) level q heads.old flows.old }
{
    let judged = chain_heads::judge(job, level, q);
    let b = outlet_head(job);
    let h = judged.head;
    let fits = judged.fits;
    let a = coefficient_for(q, h, b);
    let given = (0.0 < q) & fits & (b < h) & fields::is_finite(h - b) & fields::is_finite(a);
    if !given {
        return None;
    }
    chain_heads::write(job, level, q, heads, flows);
    Some(a)
}

// Question 51 of an accepted job.
fn is_chain_with(job: &[u8], level: f64, q: f64) -> bool
    requires { Accepted job.now }
    ensures { result ≡ is_chain_with (job_of job.now) level q }
{
    chain::is_chain(job) & fields::is_finite(level) & fields::is_finite(q)
}

// Sets the valve of a chain for the discharge q at the level `level`: questions 1 to 15 with 50 and 53, then 51 and 52.
#[tactic(auto, unfolding(setting::specs::Setting::set_valve, setting::specs::Setting::kept, setting::specs::Setting::rows_hold), using(crate::proofs::CallLaws::asked))]
pub fn set_valve(
    job: &[u8],
    level: f64,
    q: f64,
    heads: &mut [f64],
    flows: &mut [f64],
) -> Result<Option<f64>, Question>
    ensures { leaves heads flows result
        ≡ set_valve job.now level q heads.old flows.old }
{
    let held = reader::read(job)?;
    ask(is_chain_with(job, level, q), Question::Chain)?;
    let hold = (held.sections <= heads.len()) & (held.sections <= flows.len());
    ask(hold, Question::SettingRows)?;
    Ok(set_or_none(job, level, q, heads, flows))
}

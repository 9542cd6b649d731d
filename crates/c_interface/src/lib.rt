// The calls of Vintuqay for programs in C: the same contracts as in Rattle, each answer one number.
// docs/src/c/vintuqay.h declares them.
#![tactic(auto)]

ghost use Rattle.std.specs.Prelude.{◌≡◌, length};
ghost use Rattle.root.specs.Root.{root_of};
ghost use Rattle.reader.specs.Answer.{read_answer};
ghost use Rattle.recurrence.specs.Calls.{start_call, run_on_call};
ghost use Rattle.recurrence.specs.Slices.{before, after};
ghost use Rattle.surge.specs.Answers.{paper_answer};
ghost use Rattle.listing_text.specs.Listing.{line_written, AtFront};
ghost use Rattle.setting.specs.Setting.{set_valve};
ghost use Rattle.c_interface.specs.Packed.{packed, packed_answer, packed_read, packed_setting, coefficient_left};

use listing::Line;
use surge::{Halt, Numbers};

// The number of an answer 'none', which the papers give no number.
const NONE: usize = 255;

// A number, a section and steps in one.
fn pack(number: usize, section: usize, steps: u64) -> u64
    ensures { result ≡ packed number section steps }
{
    let low = (number % 256) as u64;
    let middle = (section % 4096) as u64;
    low + 256 * middle + 1048576 * (steps % 4294967296)
}

// The answer of the start and the run-on as one number.
fn pack_answer(answer: Result<u64, Halt>) -> u64
    ensures { result ≡ packed_answer (paper_answer answer) }
{
    let n = Numbers::from(answer);
    pack(n.number, n.section, n.steps)
}

// The root; a NaN where question 23 has a no.
#[unsafe(no_mangle)]
pub extern "C" fn vintuqay_root(x: f64) -> f64
    ensures { result ≡ root_of x }
{
    root::root_of(x)
}

// Questions 1 to 15, with 50 and 53.
#[tactic(auto, unfolding(crate::specs::Packed::packed_read))]
#[unsafe(no_mangle)]
pub extern "C" fn vintuqay_read(job: &[u8]) -> u64
    ensures { result ≡ packed_read (read_answer job.now) }
{
    match reader::read(job) {
        Err(first_no) => pack(first_no.number(), 0, 0),
        Ok(held) => pack(0, held.sections, held.steps as u64),
    }
}

// The start.
#[unsafe(no_mangle)]
pub extern "C" fn vintuqay_start(
    job: &[u8],
    heads: &mut [f64],
    flows: &mut [f64],
    highest: &mut [f64],
    lowest: &mut [f64],
    speeds: &mut [f64],
    inflows: &mut [f64],
    spare: &mut [f64],
) -> u64
    ensures { let call =
        start_call job.now (before heads flows highest lowest speeds inflows spare) in
        (result ≡ packed_answer call.answer) × (after heads flows highest lowest speeds inflows spare ≡ call.rows) }
{
    pack_answer(surge::start(job, heads, flows, highest, lowest, speeds, inflows, spare))
}

// The run-on: m is `done`, N is `count`.
#[unsafe(no_mangle)]
pub extern "C" fn vintuqay_run_on(
    job: &[u8],
    done: u64,
    count: u64,
    heads: &mut [f64],
    flows: &mut [f64],
    highest: &mut [f64],
    lowest: &mut [f64],
    speeds: &mut [f64],
    inflows: &mut [f64],
    spare: &mut [f64],
) -> u64
    ensures { let call =
        run_on_call job.now done count (before heads flows highest lowest speeds inflows spare) in
        (result ≡ packed_answer call.answer) × (after heads flows highest lowest speeds inflows spare ≡ call.rows) }
{
    pack_answer(surge::run_on(
        job, done, count, heads, flows, highest, lowest, speeds, inflows, spare,
    ))
}

// Sets the valve of a chain for a discharge at a level. The coefficient is written where one is given.
#[tactic(auto, unfolding(crate::specs::Packed::packed_setting, crate::specs::Packed::coefficient_left))]
#[unsafe(no_mangle)]
pub extern "C" fn vintuqay_set_valve(
    job: &[u8],
    level: f64,
    discharge: f64,
    heads: &mut [f64],
    flows: &mut [f64],
    coefficient: &mut f64,
) -> u64
    ensures { let call =
        set_valve job.now level discharge heads.old flows.old in
        (result ≡ packed_setting call.answer) × (heads.new ≡ call.heads) × (flows.new ≡ call.flows)
        × (coefficient.new ≡ coefficient_left call.answer coefficient.old) }
{
    match valve_setting::set_valve(job, level, discharge, heads, flows) {
        Err(question) => pack(question.number(), 0, 0),
        Ok(None) => pack(NONE, 0, 0),
        Ok(Some(a)) => {
            *coefficient = a;
            pack(0, 0, 0)
        }
    }
}

// The line of a section at the front of `out`, as the count of its bytes; 0 for question 24's no.
#[unsafe(no_mangle)]
pub extern "C" fn vintuqay_line(
    section: usize,
    head: f64,
    flow: f64,
    highest: f64,
    lowest: f64,
    out: &mut [u8],
) -> usize
    ensures { AtFront (line_written section head flow highest lowest (length out.old))
        out.old result out.new }
{
    let line = Line {
        section,
        head,
        flow,
        highest,
        lowest,
    };
    line.write(out)
}

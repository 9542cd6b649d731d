// The reader at outside vectors: reads jobs from standard input, each after its length as four bytes,
// lowest first, and prints the answer to each in a line.
#![tactic(auto)]

ghost use Rattle.std.specs.Prelude.{◌≤◌, ◌<◌, length};

use job::questions::Question;
use reader::Held;
use std::io;
use std::io::{Read, Stdin};

fn show(rt: &impl Print, answer: Result<Held, Question>) -> io::Result<()> {
    match answer {
        Err(question) => println!(rt; "refused {question}"),
        Ok(Held { sections, steps }) => println!(rt; "accepted {sections} {steps}"),
    }
}

// Reads the length of the next job, or more than `most` where there is none.
fn next_length(input: &mut Stdin, most: usize) -> usize
    requires { most < 4294967296 }
{
    let mut four = [0u8; 4];
    if input.read_exact(&mut four).is_err() {
        return most + 1;
    }
    fields::u32_at(&four, 0)
}

// Reads the next job into `space` and prints its answer; whether there was one.
fn answered(rt: &impl Print, input: &mut Stdin, space: &mut [u8]) -> io::Result<bool>
    requires { length space.old ≤ 65536 }
{
    let n = next_length(input, space.len());
    if n > space.len() {
        return Ok(false);
    }
    if input.read_exact(&mut space[0..n]).is_err() {
        return Ok(false);
    }
    show(rt, reader::read(&space[0..n]))?;
    Ok(true)
}

// A read that fails counts as the end.
fn main(rt: HostRuntime) -> io::Result<()> {
    let mut input = rt.stdin();
    let mut space = [0u8; 65536];
    for _ in 0..1000 {
        if !answered(&rt, &mut input, &mut space)? {
            break;
        }
    }
    Ok(())
}

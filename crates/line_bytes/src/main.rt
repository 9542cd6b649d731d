// The line call on bytes full of marks: reads cases from standard input, 42 bytes each (section,
// head, flow, highest, lowest, eight bytes each, lowest first; how many bytes are lent; the mark),
// and prints after each call how long the part is and all 128 bytes, those past the slice too.
#![tactic(auto)]

ghost use Rattle.std.specs.Prelude.{◌≤◌, length};

use listing::Line;
use std::io;
use std::io::Read;

// The number of a pattern; of a NaN's, the constant, since no operation makes a number of one.
fn number(b: u64) -> f64 {
    if b % 0x8000_0000_0000_0000 > 0x7ff0_0000_0000_0000 {
        return f64::NAN;
    }
    f64::from_bits(b)
}

// The line call on the first `lent` bytes: how long the part is that it hands back.
fn part_length(line: Line, lent: usize, bytes: &mut [u8]) -> usize
    requires { lent ≤ length bytes.old }
{
    line.part(&mut bytes[..lent]).len()
}

// One call.
fn show(rt: &impl Print, line: Line, lent: usize, mark: u8) -> io::Result<()>
    requires { lent ≤ 128 }
{
    let mut bytes = [mark; 128];
    let n = part_length(line, lent, &mut bytes);
    println!(rt; "{n}")?;
    rt.write_all(&bytes)?;
    println!(rt)
}

// One case.
fn show_case(rt: &impl Print, case: &[u8; 42]) -> io::Result<()> {
    let line = Line {
        section: fields::u64_at(case, 0) as usize,
        head: number(fields::u64_at(case, 8)),
        flow: number(fields::u64_at(case, 16)),
        highest: number(fields::u64_at(case, 24)),
        lowest: number(fields::u64_at(case, 32)),
    };
    let lent = usize::from(case[40]);
    if lent <= 128 {
        show(rt, line, lent, case[41])?;
    }
    Ok(())
}

// At most the 97 cases of the first 4,096 bytes are read. A read that fails counts as the end.
fn main(rt: HostRuntime) -> io::Result<()> {
    let mut input = rt.stdin();
    let mut case = [0u8; 42];
    for _ in 0..97 {
        if input.read_exact(&mut case).is_err() {
            break;
        }
        show_case(&rt, &case)?;
    }
    Ok(())
}

// The root at outside vectors: reads bit patterns from standard input, eight bytes each, lowest
// first, and prints the pattern of each root, or the refusal.
#![tactic(auto)]

use std::io;
use std::io::Read;

// A pattern of a NaN is passed over, since no operation makes a number of one.
fn show(rt: &impl Print, b: u64) -> io::Result<()> {
    if b % 0x8000_0000_0000_0000 > 0x7ff0_0000_0000_0000 {
        return Ok(());
    }
    match root::root(f64::from_bits(b)) {
        Some(r) => println!(rt; "{:016x}", r.to_bits()),
        None => println!(rt; "refused 23"),
    }
}

// At most the 512 patterns of the first 4,096 bytes are read. A read that fails counts as the end.
fn main(rt: HostRuntime) -> io::Result<()> {
    let mut input = rt.stdin();
    let mut pattern = [0u8; 8];
    for _ in 0..512 {
        if input.read_exact(&mut pattern).is_err() {
            break;
        }
        show(&rt, fields::u64_at(&pattern, 0))?;
    }
    Ok(())
}

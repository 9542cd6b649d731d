// A reader's bytes, read to its end or until a slice is full. A read that fails is told from the end.
ghost use Rattle.std.specs.Prelude.{◌≤◌, length, take, IfOk};
ghost use Rattle.std.specs.Io.KnownBytes.{Consumes};

use std::io;
use std::io::Read;

// Reads until `bytes` is full, the input ends or a read fails, and answers how many bytes it put at
// the front of `bytes`: the next ones that the reader had, none left out. A `while`: what a read gives tells how far it
// goes on, and without a heap no call of the library reads to the end.
pub fn read_all<R: Read>(input: &mut R, bytes: &mut [u8]) -> io::Result<usize>
    ensures count { IfOk result (λ n. n ≤ length bytes.new) }
    ensures consumed { IfOk result (λ n.
        Consumes (R.remaining input.old) (R.remaining input.new) (take n bytes.new)) }
{
    let mut at = 0;
    while at < bytes.len() {
        let more = input.read(&mut bytes[at..])?;
        if more == 0 {
            break;
        }
        at += more;
    }
    Ok(at)
}

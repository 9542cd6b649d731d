// table_afresh: prints the table that starts a root, entries 256 to 1,023, one decimal number a line.
#![tactic(auto)]

ghost use Rattle.std.specs.Prelude.{OnOk};
ghost use Rattle.std.specs.Io.KnownBytes.{Appends};
ghost use Rattle.table_afresh.specs.TableText.{table_text};

mod afresh;

use std::io;
use std::io::Write;

// Prints the table, in one piece.
fn print_table<W: Write>(output: &mut W) -> io::Result<()>
    ensures { OnOk result (Appends (W.contents output.old) (W.contents output.new) table_text) }
{
    let mut text = [0u8; 3840];
    let n = afresh::write_table(&mut text);
    output.write_all(&text[0..n])
}

fn main(rt: HostRuntime) {
    if print_table(&mut rt.stdout()).is_err() {
        let _ = eprintln!(rt; "table_afresh: the table could not be written whole");
    }
}

// Reads a state sheet from standard input and writes what docs/RULES.md says of it ("What the programs print"), as the
// crate `printing` has it. What can't be read or written is told on standard error, and nothing else is.
#![tactic(auto)]

ghost use Rattle.std.proofs.Common.{lit<};

use printing::LONGEST_TEXT;
use streams::{Program, serve};

#[derive(Clone, Copy)]
struct Sheet;

impl Program<LONGEST_TEXT> for Sheet {
    const UNREAD: &'static [u8] = b"sheet: the sheet was not read";

    const UNWRITTEN: &'static [u8] = b"sheet: not all answers were written";

    fn print(&self, sheet: &[u8], text: &mut [u8; LONGEST_TEXT]) -> usize {
        printing::print(sheet, text)
    }

    ghost room_fits = { lit< tt };
}

fn main(rt: HostRuntime) {
    serve(&Sheet, &mut rt.stdin(), &mut rt.stdout(), &mut rt.stderr());
}

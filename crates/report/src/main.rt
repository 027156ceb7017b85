// Reads a state sheet from standard input and writes the page about it (docs/RULES.md, "What the programs print"), as the
// crate `report_printing` has it. What can't be read or written is told on standard error, and nothing else is.
#![tactic(auto)]

ghost use Rattle.std.proofs.Common.{lit<};

use pages::PAGE_BYTES;
use streams::{Program, serve};

#[derive(Clone, Copy)]
struct Report;

impl Program<PAGE_BYTES> for Report {
    const UNREAD: &'static [u8] = b"report: the sheet was not read";

    const UNWRITTEN: &'static [u8] = b"report: not all of the page was written";

    fn print(&self, sheet: &[u8], text: &mut [u8; PAGE_BYTES]) -> usize {
        report_printing::print(sheet, text)
    }

    ghost room_fits = { lit< tt };
}

fn main(rt: HostRuntime) {
    serve(&Report, &mut rt.stdin(), &mut rt.stdout(), &mut rt.stderr());
}

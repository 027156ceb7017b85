// What the program `report` prints (docs/RULES.md, "What the programs print"): the page of a sheet's
// report, or for a refused sheet what `sheet` prints of it.
#![tactic(auto)]

ghost use Rattle.std.specs.Prelude.{take};
ghost use Rattle.io.specs.Counts.{IsPrefixLen};
ghost use Rattle.report_printing.specs.Prints.{PrintsReport};

use buffers::put;
use pages::{PAGE_BYTES, page};
use reports::report;
use wording::fault_text;

// The text of a sheet stands at the start of the buffer. What is answered is its length; what lies behind it
// is not told.
pub fn print(sheet: &[u8], buffer: &mut [u8; PAGE_BYTES]) -> usize
    ensures prefix_len { IsPrefixLen result buffer.new }
    ensures prints_report { PrintsReport sheet.now (take result buffer.new) }
{
    match report(sheet) {
        Ok(report) => {
            page(report, buffer);
            PAGE_BYTES
        }
        Err(fault) => {
            let line = fault_text(Err(fault));
            put(buffer, 0, line.bytes())
        }
    }
}

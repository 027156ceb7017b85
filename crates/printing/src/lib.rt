// What the program `sheet` prints (docs/RULES.md, "What the programs print"): a line for each state line,
// or for a refused sheet only its own. The crate `wording` has what stands in a line.
#![tactic(auto)]

ghost use Rattle.std.specs.Prelude.{◌≤◌, length, take};
ghost use Rattle.io.specs.Counts.{IsPrefixLen};
ghost use Rattle.printing.specs.Prints.{Prints};
ghost use Rattle.printing.specs.Buffer.{longest_text};
ghost use Rattle.printing.specs.Inside.{Gathers};

use buffers::put;
use lines::{MOST_STATES, SECTIONS};
use sheets::Fault;
use texts::LONGEST_LINE;
use wording::{fault_text, state_text};

// As many of the longest lines as a sheet may have state lines.
pub const LONGEST_TEXT: usize = LONGEST_LINE * (MOST_STATES * SECTIONS) as usize;

// What is printed of a good sheet is gathered line by line in one pass. The buffer has room for as many lines
// as a sheet may have, so the text never outgrows it.
fn gather(sheet: &[u8], buffer: &mut [u8]) -> Result<usize, Fault>
    requires { longest_text ≤ length buffer.old }
    ensures { Gathers sheet.now buffer.new result }
{
    let mut cursor = reader::start();
    let mut end = 0;
    while let Some(line) = reader::next(sheet, cursor)? {
        let text = state_text(line.state);
        end = put(buffer, end, text.bytes());
        cursor = line.after;
    }
    Ok(end)
}

// The text of a sheet stands at the start of the buffer, and a fault takes the place of all lines before it.
// What is answered is its length; what lies behind it is not told.
pub fn print(sheet: &[u8], buffer: &mut [u8; LONGEST_TEXT]) -> usize
    ensures prefix_len { IsPrefixLen result buffer.new }
    ensures prints { Prints sheet.now (take result buffer.new) }
{
    match gather(sheet, buffer) {
        Ok(end) => end,
        Err(fault) => {
            let line = fault_text(Err(fault));
            put(buffer, 0, line.bytes())
        }
    }
}

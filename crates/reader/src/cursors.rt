// A walk over the state lines of a sheet, in one pass: a cursor goes in, and comes back behind the line
// that was read.
ghost use Rattle.std.specs.Prelude.{◌≡◌};
ghost use Rattle.sheets.specs.Reading.{start};
ghost use Rattle.readings.specs.Figures.{next_figures};
ghost use Rattle.readings.specs.Replies.{NextIs};

use lines::line_at;
use readings::MOST_BYTES;
use sheets::{Cursor, Fault, Line, Next};

// Where every walk begins.
pub fn start() -> Cursor
    ensures { result ≡ start }
{
    Cursor {
        begun: 0,
        left: 0,
        place: 0,
    }
}

// What comes next from a cursor, behind any count lines.
pub fn next(sheet: &[u8], from: Cursor) -> Next
    ensures { NextIs sheet.now from (next_figures result) }
{
    if MOST_BYTES < sheet.len() {
        return Err(Fault::TooLong);
    }
    let mut cursor = from;
    loop {
        match line_at(sheet, cursor) {
            Line::Count(after) => {
                cursor = after;
            }
            Line::Told(next) => {
                return next;
            }
        }
    }
}

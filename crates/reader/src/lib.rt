// State sheets (docs/RULES.md, "Sheets"): any bytes at all are read as the sheet that they are, or refused
// with the number, the place and the faulty line. No byte of a sheet is written.
#![tactic(auto)]

mod cursors;

ghost use Rattle.std.specs.Prelude.{◌≡◌};
ghost use Rattle.readings.specs.Figures.{sheet_figures, line_figures};
ghost use Rattle.readings.specs.Replies.{ReadsAs, LineReadsAs, ShowsBack};
ghost use Rattle.reader.specs.Inside.{Surveys};

pub use cursors::{next, start};
use digests::scan;
use readings::{LineReading, Reading};
use sheets::{Digest, Fault, State};

// What one pass over a good sheet finds: how many state lines it has, and the one that was looked for.
#[derive(Clone, Copy)]
struct Found {
    state_lines: u64,
    wanted: Option<State>,
}

// The whole sheet in one pass, and what its state line k was: a fault behind line k refuses it too.
fn survey(sheet: &[u8], k: u64) -> Result<Found, Fault>
    ensures { Surveys sheet.now k result }
{
    let mut cursor = start();
    let mut state_lines = 0;
    let mut wanted = None;
    while let Some(line) = next(sheet, cursor)? {
        if state_lines == k {
            wanted = Some(line.state);
        }
        state_lines += 1;
        cursor = line.after;
    }
    Ok(Found {
        state_lines,
        wanted,
    })
}

// How many state lines a sheet has, or its refusal with the place.
pub fn read(sheet: &[u8]) -> Reading
    ensures { ReadsAs sheet.now (sheet_figures result) }
{
    let found = survey(sheet, 0)?;
    Ok(found.state_lines)
}

// State line k, counted from 0 through all sections, as written, in range or not.
pub fn state_line(sheet: &[u8], k: u64) -> LineReading
    ensures { LineReadsAs sheet.now k (line_figures result) }
{
    let found = survey(sheet, k)?;
    Ok(found.wanted)
}

// The faulty line as a part of the sheet, without its byte 10: empty where a line is missing, for a good
// sheet and for one that is too long, and not None: document 01 names this form.
pub fn faulty_line(sheet: &[u8]) -> &[u8]
    ensures { (result.ref_ptr.0 ≡ sheet.entry.ref_ptr.0) × ShowsBack sheet.now sheet.entry.ref_ptr.1 result.ref_ptr.1 result.now }
{
    match read(sheet) {
        Ok(_) => &sheet[0..0],
        Err(Fault::TooLong) => &sheet[0..0],
        Err(Fault::Malformed { place }) => {
            let end = scan(sheet, place, Digest::Empty).end;
            &sheet[place..end]
        }
    }
}

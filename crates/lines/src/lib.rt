// One line of a sheet (docs/RULES.md, "Sheets"), read where a cursor stands.
#![tactic(auto)]

ghost use Rattle.std.specs.Prelude.{◌≡◌};
ghost use Rattle.sheets.specs.Grammar.{all_sections};
ghost use Rattle.sheets.specs.Lines.{counted, stated, ended, wants_line, unended, met};

use digests::scan;
use sheets::{Cursor, Digest, Fault, Line, State, StateLine};

// How many sections a sheet has: one a fluid, in the order of their numbers.
pub const SECTIONS: u64 = 3;

pub const MOST_STATES: u64 = 1_000;

// A line that is one number stands where a section may begin.
fn count_line(cursor: Cursor, next: usize, count: u64) -> Line
    ensures { result ≡ counted all_sections cursor next count }
{
    let begun = cursor.begun;
    let left = cursor.left;
    let place = cursor.place;
    if left != 0 {
        return Line::Told(Err(Fault::Malformed { place }));
    }
    if SECTIONS <= begun {
        return Line::Told(Err(Fault::Malformed { place }));
    }
    if MOST_STATES < count {
        return Line::Told(Err(Fault::Malformed { place }));
    }
    Line::Count(Cursor {
        begun: begun + 1,
        left: count,
        place: next,
    })
}

// A line of two numbers stands where the section begun last lacks a state. A section's fluid is its number, from 0. Where
// no section was begun no state line is wanted, and the 0 tells nothing.
fn state_line(cursor: Cursor, next: usize, millikelvin: u64, pascals: u64) -> Line
    ensures { result ≡ stated cursor next millikelvin pascals }
{
    let begun = cursor.begun;
    let left = cursor.left;
    let place = cursor.place;
    if left == 0 {
        return Line::Told(Err(Fault::Malformed { place }));
    }
    Line::Told(Ok(Some(StateLine {
        state: State {
            fluid: begun.saturating_sub(1),
            millikelvin,
            pascals,
        },
        after: Cursor {
            begun,
            left: left - 1,
            place: next,
        },
    })))
}

// A line that has its end, by its digest. The next line begins where `next` says.
pub fn ended_line(cursor: Cursor, next: usize, digest: Digest) -> Line
    ensures { result ≡ ended all_sections cursor next digest }
{
    let place = cursor.place;
    match digest {
        Digest::First(count) => count_line(cursor, next, count),
        Digest::Second { first, second } => state_line(cursor, next, first, second),
        Digest::Empty => Line::Told(Err(Fault::Malformed { place })),
        Digest::AfterSpace(_) => Line::Told(Err(Fault::Malformed { place })),
        Digest::Bad => Line::Told(Err(Fault::Malformed { place })),
    }
}

// Whether a line is wanted where the cursor stands: a state line of the section begun last, or the count of
// one more.
pub fn wants_line(cursor: Cursor) -> bool
    ensures { result ≡ wants_line all_sections cursor }
{
    let begun = cursor.begun;
    let left = cursor.left;
    if left != 0 {
        return true;
    }
    if begun < SECTIONS {
        return true;
    }
    false
}

// Where there is no line's end any more, the sheet is over or a line lacks its end, or is missing.
fn unended_line(cursor: Cursor, end: usize) -> Line
    ensures { result ≡ unended all_sections cursor end }
{
    let place = cursor.place;
    if place < end {
        return Line::Told(Err(Fault::Malformed { place }));
    }
    if wants_line(cursor) {
        return Line::Told(Err(Fault::Malformed { place }));
    }
    Line::Told(Ok(None))
}

// What begins where the cursor stands.
pub fn line_at(sheet: &[u8], cursor: Cursor) -> Line
    ensures { result ≡ met all_sections sheet.now cursor }
{
    let line = scan(sheet, cursor.place, Digest::Empty);
    let digest = line.digest;
    let end = line.end;
    let next = line.next;
    if end < next {
        return ended_line(cursor, next, digest);
    }
    unended_line(cursor, end)
}

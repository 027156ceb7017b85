// How a line goes on: what the part has of it is taken, and either it is held, or it has ended, or a fault is met.
ghost use Rattle.std.specs.Prelude.{◌≡◌, ◌-◌, ◌<◌, length, drop};
ghost use Rattle.parts.specs.Bytes.{longest_line, quiet, opened, another};
ghost use Rattle.parts.specs.Inside.{told, behind_of, Goes};

use crate::{Reader, Standing, Taken};
use digests::scan;
use lines::{ended_line, wants_line};
use readings::MOST_BYTES;
use sheets::{Cursor, Digest, Fault, Line};

// No good line has more bytes before its end: two numbers of ten digits, and the space between them.
const LONGEST_LINE: usize = 21;

// Bytes that brought nothing.
pub(crate) fn nothing(reader: Reader, taken: usize) -> Taken
    ensures { result ≡ told (quiet reader) taken }
{
    Taken {
        reader,
        brought: None,
        taken,
    }
}

// At the start of a line.
pub(crate) fn opened(cursor: Cursor, state_lines: u64) -> Reader
    ensures { result ≡ opened cursor state_lines }
{
    Ok(Standing {
        cursor,
        digest: Digest::Empty,
        held: 0,
        state_lines,
    })
}

// One state line more. A sheet has fewer of them than bytes, so a reader that came from the start never meets
// the bound.
fn another(state_lines: u64) -> u64
    ensures { result ≡ another state_lines }
{
    if MOST_BYTES as u64 <= state_lines {
        return state_lines;
    }
    state_lines + 1
}

// Behind a line that has ended. Such a line is never told as the end of the sheet or as too long.
fn behind(line: Line, state_lines: u64, taken: usize) -> Taken
    ensures { result ≡ behind_of line state_lines taken }
{
    match line {
        Line::Count(after) => nothing(opened(after, state_lines), taken),
        Line::Told(Ok(Some(line))) => Taken {
            reader: opened(line.after, another(state_lines)),
            brought: Some(line.state),
            taken,
        },
        Line::Told(Ok(None)) => nothing(Err(Fault::TooLong), taken),
        Line::Told(Err(fault)) => nothing(Err(fault), taken),
    }
}

// Goes on with a line: takes what the part has of it from a place on, with its end if that is there.
pub(crate) fn go_on(standing: Standing, part: &[u8], from: usize) -> Taken
    requires { from < length part.now }
    ensures { Goes standing (drop from part.now) from result }
{
    let cursor = standing.cursor;
    let held = standing.held;
    let state_lines = standing.state_lines;
    let place = cursor.place;
    let before = standing.digest;
    let line = scan(part, from, before);
    let digest = line.digest;
    let end = line.end;
    let next = line.next;
    let text = end - from;
    if MOST_BYTES <= place {
        return nothing(Err(Fault::TooLong), next);
    }
    if MOST_BYTES - place <= held {
        return nothing(Err(Fault::TooLong), next);
    }
    if !wants_line(cursor) {
        return nothing(Err(Fault::Malformed { place }), next);
    }
    let room = MOST_BYTES - place - held;
    // how many bytes more may belong to a good line
    let spare = LONGEST_LINE.saturating_sub(held);
    if spare < text {
        if spare < room {
            let fault = Fault::Malformed { place };
            return nothing(Err(fault), next);
        }
    }
    if room < text {
        return nothing(Err(Fault::TooLong), next);
    }
    if next == end {
        let held = held + text;
        let longer = Standing {
            cursor,
            digest,
            held,
            state_lines,
        };
        return nothing(Ok(longer), next);
    }
    if room <= text {
        return nothing(Err(Fault::TooLong), next);
    }
    let met = ended_line(cursor, place + held + text + 1, digest);
    behind(met, state_lines, next)
}

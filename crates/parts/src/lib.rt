// Sheets that arrive in parts (docs/RULES.md, "A sheet in parts"): the bytes come in any pieces, and each
// state is told as its line ends. No line is kept: a reader has the digest of the line so far and a few
// numbers.
#![tactic(auto)]

mod going;

ghost use Rattle.std.specs.Prelude.{◌≡◌};
ghost use Rattle.parts.specs.Bytes.{at_start};
ghost use Rattle.parts.specs.Takes.{Takes, number_of_reader, number_of, over};

use crate::going::{go_on, nothing, opened};
use lines::wants_line;
use readings::Reading;
pub use sheets::Fault;
use sheets::{Cursor, Digest, State};

// Where no fault was met so far: where the line begins that is not over yet, what its bytes come to, how many
// of them are held, and how many state lines ended before it.
#[derive(Clone, Copy)]
pub struct Standing {
    pub cursor: Cursor,
    pub digest: Digest,
    pub held: usize,
    pub state_lines: u64,
}

// What is kept of a sheet between two of its parts.
pub type Reader = Result<Standing, Fault>;

// How many bytes of a part were taken, the state line that ended with the last of them, if one did, and the reader
// behind them.
#[derive(Clone, Copy)]
pub struct Taken {
    pub reader: Reader,
    pub brought: Option<State>,
    pub taken: usize,
}

// The number of a part that is used up: 16 where no fault was met so far, and a fault's own.
pub fn number(reader: Reader) -> u64
    ensures { result ≡ number_of_reader reader }
{
    match reader {
        Ok(_) => 16,
        Err(Fault::Malformed { place: _ }) => 6,
        Err(Fault::TooLong) => 7,
    }
}

impl Taken {
    // The same, or 0 where a state line ended.
    pub fn number(self) -> u64
        ensures { result ≡ number_of self.brought self.reader }
    {
        match self.brought {
            Some(_) => 0,
            None => number(self.reader),
        }
    }
}

// Before the first byte of a sheet.
pub fn start() -> Reader
    ensures { result ≡ at_start }
{
    opened(
        Cursor {
            begun: 0,
            left: 0,
            place: 0,
        },
        0,
    )
}

// Takes bytes of a part, in any state of the reader: up to the end of a state line, or all of them.
pub fn take(reader: Reader, part: &[u8]) -> Taken
    ensures { Takes reader part.now result }
{
    let mut now = reader;
    let mut from = 0;
    // The rest of a line is taken at once, so no `for` goes from byte to byte.
    while from < part.len() {
        let Ok(standing) = now else {
            return nothing(now, part.len());
        };
        let gone = go_on(standing, part, from);
        if gone.brought.is_some() {
            return gone;
        }
        now = gone.reader;
        from = gone.taken;
    }
    nothing(now, from)
}

// What is to be said of the sheet if it is over here.
pub fn end(reader: Reader) -> Reading
    ensures { result ≡ over reader }
{
    let standing = reader?;
    let cursor = standing.cursor;
    let place = cursor.place;
    if standing.held != 0 {
        return Err(Fault::Malformed { place });
    }
    if wants_line(cursor) {
        return Err(Fault::Malformed { place });
    }
    Ok(standing.state_lines)
}

// What a program reads and writes: a call that fails is told, one that a signal interrupted is made again, and one that
// moves a part of the bytes is followed by another.
#![tactic(auto)]

ghost use Rattle.std.specs.Prelude.{◌≡◌, ◌<◌, ◌≤◌, ◌^◌, ℕ, IfOk, IfErr};
ghost use Rattle.io.specs.Counts.{IsPrefixLen};
ghost use Rattle.buffers.specs.Puts.{Puts};
ghost use Rattle.streams.specs.Streams.{CameTo, NoShortInput};
ghost use Rattle.streams.specs.Faults.{fault_text, room_for_a_reason, longest_fault};

use buffers::put;
use std::io;
use std::io::{Cursor, ErrorKind, Read, Write};

// What one call came to: it moved so many bytes, or none, as at the end of an input; a signal came first;
// or it can't. Four ways to go on, so it is no Result.
#[derive(Clone, Copy)]
pub enum Call {
    Bytes(usize),
    Nothing,
    Interrupted,
    Failed,
}

// Of a text that not all was written of: how many of its bytes the system took, and why no more.
#[derive(Drop)]
pub struct Unwritten {
    pub taken: usize,
    pub why: Option<io::Error>,
}

// A program ends, so it makes no more calls than this for one input or output. No system lives to see the last.
const MOST_CALLS: u64 = u64::MAX;

// One byte more than a sheet may have, so that a longer one is told.
const LONGEST_INPUT: usize = 65_537;

// Room for the system's words for any error.
const ROOM: usize = 256;

// Room for the line that says what failed and why.
const LONGEST_FAULT: usize = 512;

// Two bytes between what failed and why, and the line's end.
const AROUND: usize = 3;

// Where nothing failed, and the system took no more bytes all the same.
const NO_REASON: &[u8] = b"no more was taken";

// What std tells of a call that was lent `most` bytes.
fn came_to(answer: &io::Result<usize>, most: usize) -> Call
    ensures told { CameTo answer.now most result }
    ensures no_more_than_lent { (moved : ℕ) → result ≡ Call.Bytes moved → moved ≤ most }
    ensures nothing_moved { result ≡ Call.Nothing → answer.now ≡ Ok 0 }
{
    match answer {
        Ok(0) => Call::Nothing,
        Ok(count) => Call::Bytes((*count).min(most)),
        Err(why) if why.kind() == ErrorKind::Interrupted => Call::Interrupted,
        Err(_) => Call::Failed,
    }
}

// Reads until the buffer is full or the input ends, and answers how many bytes lie at its start. Of an input that
// failed none is passed on, but why, where that is known.
pub fn read<R: Read>(input: &mut R, buffer: &mut [u8]) -> Result<usize, Option<io::Error>>
    ensures prefix_len { IfOk result (λ held. IsPrefixLen held buffer.new) }
    ensures no_short_input { NoShortInput result buffer.new (R.remaining input.new) }
{
    let mut held = 0;
    for _ in 0..MOST_CALLS {
        let room = buffer.len() - held;
        if room == 0 {
            return Ok(held);
        }
        let answer = input.read(&mut buffer[held..]);
        match came_to(&answer, room) {
            Call::Bytes(more) => held += more,
            Call::Nothing => return Ok(held),
            Call::Interrupted => {}
            Call::Failed => return Err(answer.err()),
        }
    }
    Err(None)
}

// Writes all of the text, unless the system takes no more.
pub fn write<W: Write>(output: &mut W, text: &[u8]) -> Result<(), Unwritten>
    ensures { IfErr result (λ unwritten. IsPrefixLen unwritten.taken text.now) }
{
    let mut taken = 0;
    for _ in 0..MOST_CALLS {
        let left = text.len() - taken;
        if left == 0 {
            return Ok(());
        }
        let answer = output.write(&text[taken..]);
        match came_to(&answer, left) {
            Call::Bytes(more) => taken += more,
            Call::Nothing => return Err(Unwritten { taken, why: None }),
            Call::Interrupted => {}
            Call::Failed => {
                let why = answer.err();
                return Err(Unwritten { taken, why });
            }
        }
    }
    Err(Unwritten { taken, why: None })
}

// Puts the line that says what failed and why at the start of a buffer, and answers its length. Where it has no room,
// nothing is written.
pub fn fault_line(what: &[u8], why: &[u8], line: &mut [u8]) -> usize
    ensures { Puts (fault_text what.now why.now) line.old 0 line.new result }
{
    let room = line.len();
    if room < what.len() {
        return 0;
    }
    if room - what.len() < why.len() {
        return 0;
    }
    if room - what.len() - why.len() < AROUND {
        return 0;
    }
    let what_end = put(line, 0, what);
    let why_begins = put(line, what_end, b": ");
    let why_end = put(line, why_begins, why);
    put(line, why_end, b"\n")
}

// The system's words for an error, without its number, at the start of the buffer; where it has none, ours.
fn reason(why: &Option<io::Error>, room: &mut [u8; ROOM]) -> usize
    ensures { result ≤ room_for_a_reason }
{
    let mut cursor = Cursor::new([0u8; ROOM]);
    let named = match why {
        Some(why) => write!(cursor, "{why}").is_ok(),
        None => false,
    };
    if !named {
        return put(room, 0, NO_REASON).min(ROOM);
    }
    let end = (cursor.position() as usize).min(ROOM);
    let words = cursor.into_inner();
    match std::str::from_utf8(&words[..end]) {
        Ok(text) => match text.rsplit_once(" (os error ") {
            Some((words, _)) => put(room, 0, words.as_bytes()).min(ROOM),
            None => put(room, 0, text.as_bytes()).min(ROOM),
        },
        Err(_) => put(room, 0, NO_REASON).min(ROOM),
    }
}

// Writes the line that says what failed, and answers how many of its bytes the system took.
pub fn tell<W: Write>(errors: &mut W, what: &[u8], why: &Option<io::Error>) -> usize
    ensures { result ≤ longest_fault }
{
    let mut room = [0u8; ROOM];
    let words = reason(why, &mut room);
    let mut line = [0u8; LONGEST_FAULT];
    let length = fault_line(what, &room[..words], &mut line);
    let line = &line[..length.min(LONGEST_FAULT)];
    match write(errors, line) {
        Ok(()) => line.len(),
        Err(unwritten) => unwritten.taken,
    }
}

// A program that reads a sheet and prints a text about it.
pub trait Program<const ROOM: usize> {
    // What is told where the sheet was not read, and where not all of the text was written.
    const UNREAD: &'static [u8];

    const UNWRITTEN: &'static [u8];

    // Puts the text at the start of the buffer, and answers its length.
    fn print(&self, sheet: &[u8], text: &mut [u8; ROOM]) -> usize
        ensures { result ≤ ROOM };

    // No larger buffer can be lent.
    ghost room_fits: { ROOM < 2 ^ 63 };
}

// Reads the sheet, prints the text, and tells what failed; of an input that failed nothing is printed. Answers how
// many bytes of what failed the system took, 0 where nothing did.
pub fn serve<const ROOM: usize, P: Program<ROOM>, R: Read, W: Write, E: Write>(
    program: &P,
    input: &mut R,
    output: &mut W,
    errors: &mut E,
) -> usize
    ensures { result ≤ longest_fault }
{
    let mut sheet = [0u8; LONGEST_INPUT];
    let held = match read(input, &mut sheet) {
        Ok(held) => held,
        Err(why) => return tell(errors, P::UNREAD, &why),
    };
    let mut text = [0u8; ROOM];
    let length = program.print(&sheet[..held], &mut text);
    match write(output, &text[..length]) {
        Ok(()) => 0,
        Err(unwritten) => tell(errors, P::UNWRITTEN, &unwritten.why),
    }
}

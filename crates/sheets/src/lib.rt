// State sheets (docs/RULES.md, "Sheets"): the values that the definitions of a sheet speak of. How a sheet
// is written and read is defined in specs/, and what follows from that is proved in proofs/; the code that
// reads one is the crate `reader`.
#![tactic(auto)]

// A state line: the number of its section's fluid, and its two numbers as written. These do not lie side by side: as they
// do in a digest, the compiler would move both as one, and the processor would wait until both are written.
#[derive(Clone, Copy)]
pub struct State {
    pub millikelvin: u64,
    pub fluid: u64,
    pub pascals: u64,
}

// Where a reading stands, at the start of a line: how many sections were begun, how many state lines the
// last of them still lacks, and the place of the line's first byte.
#[derive(Clone, Copy)]
pub struct Cursor {
    pub begun: u64,
    pub left: u64,
    pub place: usize,
}

// Why bytes are no good sheet: a line that may not stand where it begins, or more bytes than a sheet may have.
#[derive(Clone, Copy, Debug, PartialEq, Eq)]
pub enum Fault {
    Malformed { place: usize },
    TooLong,
}

// A state line, and the cursor behind it.
#[derive(Clone, Copy)]
pub struct StateLine {
    pub state: State,
    pub after: Cursor,
}

// What comes next: a state line, the end of a good sheet, or the sheet's fault.
pub type Next = Result<Option<StateLine>, Fault>;

// What a line's bytes come to, taken one at a time. Nothing yet; one number, and so a count line; that and
// its space; two numbers, and so a state line; or bytes that no line of a sheet begins with.
#[derive(Clone, Copy)]
pub enum Digest {
    Empty,
    First(u64),
    AfterSpace(u64),
    Second { first: u64, second: u64 },
    Bad,
}

// The line that starts at a place: its digest, where its text ends, and where the next line begins. The
// two places are one where the bytes stop before a line's end.
#[derive(Clone, Copy)]
pub struct Scanned {
    pub digest: Digest,
    pub end: usize,
    pub next: usize,
}

// A count line only moves the cursor; anything else is what comes next. Neither is a failure of the other, so it is no
// Result, and no ControlFlow: `Continue` and `Break` would not say which line was met.
#[derive(Clone, Copy)]
pub enum Line {
    Count(Cursor),
    Told(Next),
}

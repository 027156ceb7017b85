// The states, and what their books say before.
use crate::State;

pub(crate) const ANSWERED: [State; 6] = [
    State(1, 300_000, 1_000_000),
    SPLIT,
    State(0, 300_000, 1_000_000),
    State(0, 1_000_000, 10_000),
    State(1, 56_000, 10_000),
    State(1, 56_000, 50_000_000),
];

// Each range from both sides of an end, and states to which more than one refusal applies.
pub(crate) const REFUSED: [State; 11] = [
    State(1, 55_999, 1_000_000),
    State(0, 13_999, 1_000_000),
    State(0, 14_000, 1_000_000),
    State(0, 1_000_001, 10_000),
    State(1, 56_000, 9_999),
    State(1, 56_000, 50_000_001),
    State(3, 0, 1_000_000),
    State(3, 0, 0),
    State(3, 1_000_001, 1_000_000),
    State(1, 0, 0),
    State(1, 1_000_001, 50_000_001),
];

// How many bytes a book has, the state, its slot and the start there. A call that is answered writes its gas
// root into its slot, one that is refused writes nothing. 64 is how many slots a book has, and not how many
// bytes.
pub(crate) const BOOKS: [(usize, State, u8, u64); 10] = [
    (192, State(1, 300_000, 1_000_000), 63, 0),
    (192, State(1, 300_000, 1_000_000), 64, 0),
    (64, State(1, 300_000, 1_000_000), 20, 99_286),
    (191, State(1, 300_000, 1_000_000), 62, 99_286),
    (193, State(1, 300_000, 1_000_000), 62, 99_286),
    (256, State(1, 300_000, 1_000_000), 64, 99_286),
    (192, State(3, 0, 0), 62, 99_286),
    (192, State(1, 55_999, 0), 62, 99_286),
    (192, State(1, 56_000, 9_999), 62, 99_286),
    (191, State(1, 56_000, 9_999), 64, 99_286),
];

pub(crate) const SPLIT: State = State(1, 120_000, 500_000);

// Starts for the two roots of `SPLIT`: one of them, beside one of them, at the bend of g, or the largest that
// three bytes hold. A search that trusts its start, or stops at any sign change, may answer with the other
// root.
pub(crate) const STARTS: [u64; 7] = [0, 1_699, 1_700, 33_333, 92_696, 92_697, 16_777_215];

// A state of each kind, and the ends of nitrogen's ranges.
pub(crate) const NITROGEN: [State; 6] = [
    State(2, 300_000, 1_000_000),
    State(2, 90_000, 300_000),
    State(2, 64_000, 10_000),
    State(2, 64_000, 50_000_000),
    State(2, 1_000_000, 10_000),
    State(2, 1_000_000, 50_000_000),
];

pub(crate) const NITROGEN_ENDS: [State; 4] = [
    State(2, 63_999, 10_000),
    State(2, 1_000_001, 10_000),
    State(2, 64_000, 9_999),
    State(2, 64_000, 50_000_001),
];

// What is answered of a sheet, and what docs/RULES.md, "Replies", says of each case.
#![tactic(auto)]

ghost use Rattle.std.specs.Prelude.{◌≡◌};
ghost use Rattle.readings.specs.Figures.{sheet_figures, line_figures, line_refused};

pub use sheets::Fault;
use sheets::State;

// Of a sheet that is read or written.
pub const MOST_BYTES: usize = 65_536;

// A whole sheet: how many state lines it has, or its fault.
pub type Reading = Result<u64, Fault>;

// One state line of a sheet, or none where it has no such line, or the sheet's own fault.
pub type LineReading = Result<Option<State>, Fault>;

// As C gets them: the number of a reading, how many state lines, and the place of a fault.
#[derive(Clone, Copy)]
pub struct SheetFigures {
    pub number: u64,
    pub state_lines: u64,
    pub place: usize,
}

// As C gets them: the number of a reply to a question for a state line, the state, and the place of a fault.
#[derive(Clone, Copy)]
pub struct LineFigures {
    pub number: u64,
    pub fluid: u64,
    pub millikelvin: u64,
    pub pascals: u64,
    pub place: usize,
}

impl From<Reading> for SheetFigures {
    ghost from_gives = { λ reading figures. figures ≡ sheet_figures reading };

    fn from(reading: Reading) -> SheetFigures {
        match reading {
            Ok(state_lines) => SheetFigures {
                number: 0,
                state_lines,
                place: 0,
            },
            Err(Fault::Malformed { place }) => SheetFigures {
                number: 6,
                state_lines: 0,
                place,
            },
            Err(Fault::TooLong) => SheetFigures {
                number: 7,
                state_lines: 0,
                place: 0,
            },
        }
    }
}

impl From<LineReading> for LineFigures {
    ghost from_gives = { λ reading figures. figures ≡ line_figures reading };

    fn from(reading: LineReading) -> LineFigures {
        match reading {
            Ok(Some(state)) => LineFigures {
                number: 0,
                fluid: state.fluid,
                millikelvin: state.millikelvin,
                pascals: state.pascals,
                place: 0,
            },
            Ok(None) => refused(16, 0),
            Err(Fault::Malformed { place }) => refused(6, place),
            Err(Fault::TooLong) => refused(7, 0),
        }
    }
}

fn refused(number: u64, place: usize) -> LineFigures
    ensures { result ≡ line_refused number place }
{
    LineFigures {
        number,
        fluid: 0,
        millikelvin: 0,
        pascals: 0,
        place,
    }
}

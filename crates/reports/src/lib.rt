// One page about a whole sheet (docs/RULES.md, "The report"): what its states come to, fluid by fluid. A
// sheet may come whole or in parts; either way the one step of `tallies` goes over its states, as their
// lines end.
#![tactic(auto)]

mod told;

ghost use Rattle.std.specs.Prelude.{◌≡◌};
ghost use Rattle.reports.specs.Parts.{line_of, AddsOne, TakesPart, at_start, over_here};
ghost use Rattle.reports.specs.Sheets.{figures_of, ReportsAs};

use parts::Reader;
use replies::Figures;
pub use sheets::Fault;
use sheets::State;
use tallies::{Report, plus};
pub use told::{ReportFigures, Reported};

// The report as far as the sheet has come, and how many state lines it has of it.
#[derive(Clone, Copy, Default)]
pub struct Running {
    pub state_lines: u64,
    pub report: Report,
}

// What is kept of a sheet between two of its parts, with its report so far.
#[derive(Clone, Copy)]
pub struct Reporting {
    pub reader: Reader,
    pub running: Running,
}

// Lines are counted from 1. Before a state line stand the state lines so far, the count line of its own section and
// one for each section before that, as many as the number of its fluid.
fn line_of(state_lines: u64, fluid: u64) -> u64
    ensures { result ≡ line_of state_lines fluid }
{
    let before = plus(state_lines, fluid);
    plus(before, 2)
}

impl Running {
    // One state line more, with the reply to it.
    fn add_line(&mut self, line: State)
        ensures { AddsOne self.old line self.new }
    {
        let number = line_of(self.state_lines, line.fluid);
        let reply = state::ask(line.fluid, line.millikelvin, line.pascals);
        self.report.add(line.fluid, number, Figures::from(reply));
        self.state_lines = plus(self.state_lines, 1);
    }
}

// Before the first byte of a sheet.
pub fn start() -> Reporting
    ensures { result ≡ at_start }
{
    Reporting {
        reader: parts::start(),
        running: Running::default(),
    }
}

// Takes all bytes of a part, whatever the reader and the report hold.
pub fn take(mut reporting: Reporting, part: &[u8]) -> Reporting
    ensures { TakesPart reporting part.now result }
{
    let mut rest = part;
    loop {
        let told = parts::take(reporting.reader, rest);
        reporting.reader = told.reader;
        let Some(line) = told.brought else {
            return reporting;
        };
        reporting.running.add_line(line);
        rest = &rest[told.taken..];
    }
}

// What is to be said of the sheet if it is over here.
pub fn end(reporting: Reporting) -> Reported
    ensures { result ≡ over_here reporting }
{
    parts::end(reporting.reader)?;
    Ok(reporting.running.report)
}

// The report of a whole sheet, in one pass over it.
pub fn report(sheet: &[u8]) -> Reported
    ensures { ReportsAs sheet.now (figures_of result) }
{
    let mut cursor = reader::start();
    let mut running = Running::default();
    while let Some(line) = reader::next(sheet, cursor)? {
        running.add_line(line.state);
        cursor = line.after;
    }
    Ok(running.report)
}

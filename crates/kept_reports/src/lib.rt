// A report as rows of eleven numbers, one for each section, and what is kept of a sheet that arrives in
// parts, as a row more before them (docs/RULES.md, "The report"). Zeros are a sheet before its first byte,
// and any numbers at all are some reader and some report.
#![tactic(auto)]

ghost use Rattle.std.specs.Prelude.{◌≡◌};
ghost use Rattle.kept_reports.specs.Rows.{rows_of, reader_row, kept_rows, reporting_of};

use parts::Reader;
use reports::{Reporting, Running};
use tallies::{Report, Row};

// The rows of a report, hydrogen's first.
pub fn rows(report: Report) -> [Row; 3]
    ensures { result ≡ rows_of report }
{
    let hydrogen = Row::from(report.hydrogen);
    let oxygen = Row::from(report.oxygen);
    let nitrogen = Row::from(report.nitrogen);
    [hydrogen, oxygen, nitrogen]
}

// The reader's eight numbers, how many state lines there were, and two zeros.
fn reader_row(reader: Reader, state_lines: u64) -> Row
    ensures { result ≡ reader_row reader state_lines }
{
    let [stage, first, second, begun, left, place, held, read] = kept::numbers(reader);
    [
        stage,
        first,
        second,
        begun,
        left,
        place,
        held,
        read,
        state_lines,
        0,
        0,
    ]
}

// The rows that a sheet is kept in.
pub fn kept_rows(reporting: Reporting) -> [Row; 4]
    ensures { result ≡ kept_rows reporting }
{
    let running = reporting.running;
    let first = reader_row(reporting.reader, running.state_lines);
    let [hydrogen, oxygen, nitrogen] = rows(running.report);
    [first, hydrogen, oxygen, nitrogen]
}

// The sheet that rows keep.
pub fn reporting(rows: &[Row; 4]) -> Reporting
    ensures { result ≡ reporting_of rows.now }
{
    let [numbers, hydrogen, oxygen, nitrogen] = *rows;
    let [
        stage,
        first,
        second,
        begun,
        left,
        place,
        held,
        read,
        state_lines,
        _,
        _,
    ] = numbers;
    let eight = [stage, first, second, begun, left, place, held, read];
    Reporting {
        reader: kept::reader(&eight),
        running: Running {
            state_lines,
            report: Report::from([hydrogen, oxygen, nitrogen]),
        },
    }
}

// What is answered of a sheet: its report, or its refusal. A refused sheet has an empty report.
ghost use Rattle.std.specs.Prelude.{◌≡◌};
ghost use Rattle.reports.specs.Sheets.{figures_of, report_refused};

use sheets::Fault;
use tallies::{Report, empty};

pub type Reported = Result<Report, Fault>;

// As C gets them: the number, the report, and the place of a fault.
#[derive(Clone, Copy)]
pub struct ReportFigures {
    pub number: u64,
    pub report: Report,
    pub place: usize,
}

impl From<Reported> for ReportFigures {
    ghost from_gives = { λ reported figures. figures ≡ figures_of reported };

    fn from(reported: Reported) -> ReportFigures {
        match reported {
            Ok(report) => ReportFigures {
                number: 0,
                report,
                place: 0,
            },
            Err(Fault::Malformed { place }) => refused(6, place),
            Err(Fault::TooLong) => refused(7, 0),
        }
    }
}

fn refused(number: u64, place: usize) -> ReportFigures
    ensures { result ≡ report_refused number place }
{
    ReportFigures {
        number,
        report: empty(),
        place,
    }
}

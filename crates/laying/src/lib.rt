// What a reply comes to where a caller of the boundary reads it: which of its figures lies where, for the calls that share a
// reply. They stand apart from the boundary, so that what is wrong in one of them is tried on these few functions.
#![tactic(auto)]

ghost use Rattle.laying.specs.States.{Laid};
ghost use Rattle.laying.specs.Sides.{SideLaid};
ghost use Rattle.laying.specs.Lines.{AnswersBrought};
ghost use Rattle.laying.specs.Reports.{ReportLaid};

use reports::{ReportFigures, Reported};
use sheets::State;
use state::{Figures, Reply, SideFigures, SideReply};
use tallies::Row;

// The number of a reply. Its kind, its roots and its densities go to the caller's array.
pub fn lay_figures(reply: Reply, figures: &mut [u64; 5]) -> u64
    ensures { Laid reply result figures.new }
{
    let told = Figures::from(reply);
    *figures = [
        told.kind,
        told.gas_root,
        told.dense_root,
        told.gas_density,
        told.dense_density,
    ];
    told.number
}

// The same of a side's reply: its root and its density.
pub fn lay_side(reply: SideReply, figures: &mut [u64; 2]) -> u64
    ensures { SideLaid reply result figures.new }
{
    let shown = SideFigures::from(reply);
    *figures = [shown.root, shown.density];
    shown.number
}

// The state line that ended, and the reply to its state. Where none did, zeros.
pub fn lay_line(brought: Option<State>, answer: &mut [u64; 9])
    ensures { AnswersBrought brought answer.new }
{
    *answer = match brought {
        Some(line) => {
            let reply = state::ask(line.fluid, line.millikelvin, line.pascals);
            let figures = Figures::from(reply);
            [
                line.fluid,
                line.millikelvin,
                line.pascals,
                figures.number,
                figures.kind,
                figures.gas_root,
                figures.dense_root,
                figures.gas_density,
                figures.dense_density,
            ]
        }
        None => [0; 9],
    };
}

// The number of a reply to a sheet. Its report goes to the caller row by row, and so does the place of a fault.
pub fn lay_report(reply: Reported, report: &mut [Row; 3], place: &mut u64) -> u64
    ensures { ReportLaid reply result report.new place.new }
{
    let said = ReportFigures::from(reply);
    *report = kept_reports::rows(said.report);
    *place = said.place as u64;
    said.number
}

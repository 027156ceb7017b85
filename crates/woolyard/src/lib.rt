// The boundary to C, Rust and Python: the functions of include/woolyard.h, each of which answers the
// number and lays what goes with it where its caller said. C passes a slice as a pointer and then
// a length, and an array or a number to write as a pointer.
#![tactic(auto)]

mod layout;

ghost use Rattle.std.specs.Prelude.{◌≡◌};
ghost use Rattle.woolyard.specs.Versions.{abi};
ghost use Rattle.laying.specs.States.{StateAnswers, BookAnswers};
ghost use Rattle.laying.specs.Sides.{SideAnswers, SideBookAnswers};
ghost use Rattle.woolyard.specs.Walks.{WalkAnswers};
ghost use Rattle.woolyard.specs.Bands.{BandAnswers};
ghost use Rattle.claims.specs.Lists.{lists_of};
ghost use Rattle.woolyard.specs.Claims.{ClaimsAnswers};
ghost use Rattle.woolyard.specs.Heats.{HeatAnswers};
ghost use Rattle.woolyard.specs.HeatTables.{HeatTableAnswers};
ghost use Rattle.woolyard.specs.Viscosities.{ViscosityAnswers};
ghost use Rattle.woolyard.specs.Sheets.{SheetAnswers, LineAnswers};
ghost use Rattle.woolyard.specs.Nexts.{NextAnswers};
ghost use Rattle.woolyard.specs.Parts.{TakeAnswers, EndAnswers};
ghost use Rattle.woolyard.specs.Reports.{ReportAnswers, ReportTakeAnswers, ReportEndAnswers};
ghost use Rattle.measures.specs.Columns.{fluids_of};
ghost use Rattle.woolyard.specs.Writes.{WriteAnswers};

use crate::layout::faulty_line_length;
use claims::ClaimsFigures;
use heat::HeatCapacity;
use heat_table::TableFigures;
use laying::{lay_figures, lay_line, lay_report, lay_side};
use measures::{Columns, Lists, WriteFigures};
use readings::{LineFigures, SheetFigures};
use sheets::{Cursor, Fault};
use state::{BandFigures, WalkFigures};
use viscosity::ExcessFigures;

// The header's WOOLYARD_ABI. A caller that was compiled with another number would misread what is answered.
const ABI: u64 = 1;

#[unsafe(no_mangle)]
pub extern "C" fn woolyard_abi() -> u64
    ensures { result ≡ abi }
{
    ABI
}

// The reply to a state: the array gets its kind, its two roots and their densities.
#[unsafe(no_mangle)]
pub extern "C" fn woolyard_state(
    fluid: u64,
    millikelvin: u64,
    pascals: u64,
    figures: &mut [u64; 5],
) -> u64
    ensures { StateAnswers fluid millikelvin pascals result figures.new }
{
    let reply = state::ask(fluid, millikelvin, pascals);
    lay_figures(reply, figures)
}

// The same with a book of starting points, which gets the gas root in its slot and nothing else.
#[unsafe(no_mangle)]
pub extern "C" fn woolyard_state_with_book(
    fluid: u64,
    millikelvin: u64,
    pascals: u64,
    slot: u64,
    book: &mut [u8],
    figures: &mut [u64; 5],
) -> u64
    ensures { BookAnswers fluid millikelvin pascals slot book.old result figures.new book.new }
{
    let reply = state::ask_with_book(fluid, millikelvin, pascals, slot, book);
    lay_figures(reply, figures)
}

// One side of the reply to a state: the array gets its root and its density.
#[unsafe(no_mangle)]
pub extern "C" fn woolyard_side(
    fluid: u64,
    millikelvin: u64,
    pascals: u64,
    side: u64,
    figures: &mut [u64; 2],
) -> u64
    ensures { SideAnswers fluid millikelvin pascals side result figures.new }
{
    let reply = state::ask_side(fluid, millikelvin, pascals, side);
    lay_side(reply, figures)
}

// The same with a book, which gets the gas root in its slot, whichever side is asked for.
#[unsafe(no_mangle)]
pub extern "C" fn woolyard_side_with_book(
    fluid: u64,
    millikelvin: u64,
    pascals: u64,
    side: u64,
    slot: u64,
    book: &mut [u8],
    figures: &mut [u64; 2],
) -> u64
    ensures { SideBookAnswers fluid millikelvin pascals side slot book.old result figures.new book.new }
{
    let reply = state::ask_side_with_book(fluid, millikelvin, pascals, side, slot, book);
    lay_side(reply, figures)
}

// The gas root of a state by the slow way: the array gets it, and how many values of g were worked out.
#[unsafe(no_mangle)]
pub extern "C" fn woolyard_walk(
    fluid: u64,
    millikelvin: u64,
    pascals: u64,
    limit: u64,
    walked: &mut [u64; 2],
) -> u64
    ensures { WalkAnswers fluid millikelvin pascals limit result walked.new }
{
    let reply = state::walk(fluid, millikelvin, pascals, limit);
    let told = WalkFigures::from(reply);
    *walked = [told.gas_root, told.values];
    told.number
}

// The gas root of a state at two scalings of its a: the array gets that at the lower one first.
#[unsafe(no_mangle)]
pub extern "C" fn woolyard_band(
    fluid: u64,
    millikelvin: u64,
    pascals: u64,
    lower: u64,
    upper: u64,
    roots: &mut [u64; 2],
) -> u64
    ensures { BandAnswers fluid millikelvin pascals lower upper result roots.new }
{
    let reply = state::band(fluid, millikelvin, pascals, lower, upper);
    let told = BandFigures::from(reply);
    *roots = [told.at_lower, told.at_upper];
    told.number
}

// Roots that other programs gave, checked: the caller's place gets the number of the first claim that is
// refused.
#[unsafe(no_mangle)]
pub extern "C" fn woolyard_claims(
    fluids: &[u64],
    millikelvin: &[u64],
    pascals: &[u64],
    sides: &[u64],
    roots: &[u64],
    claim: &mut u64,
) -> u64
    ensures { ClaimsAnswers (lists_of fluids.now millikelvin.now pascals.now sides.now roots.now) result claim.new }
{
    let reply = claims::check(fluids, millikelvin, pascals, sides, roots);
    let told = ClaimsFigures::from(reply);
    *claim = told.claim;
    told.number
}

// Hydrogen's ideal heat capacity. The caller's double is seen as its 64 bits: a refused temperature leaves
// each of them as it was, of a NaN too, which as a double could not be said.
#[unsafe(no_mangle)]
pub extern "C" fn woolyard_heat(kelvin: f64, heat: &mut u64) -> u64
    ensures { HeatAnswers kelvin heat.old result heat.new }
{
    let reply = heat::ideal_heat_capacity(kelvin);
    let number = reply.number();
    match reply {
        HeatCapacity::KilojoulesPerKilogramKelvin(answer) => {
            *heat = f64::to_bits(answer);
            number
        }
        HeatCapacity::OutOfRange => number,
    }
}

// The same in whole numbers, for a machine that has no doubles.
#[unsafe(no_mangle)]
pub extern "C" fn woolyard_heat_table(millikelvin: u64, heat: &mut u64) -> u64
    ensures { HeatTableAnswers millikelvin result heat.new }
{
    let reply = heat_table::ideal_heat_capacity(millikelvin);
    let told = TableFigures::from(reply);
    *heat = told.heat;
    told.number
}

// The excess viscosity factor of dense gas.
#[unsafe(no_mangle)]
pub extern "C" fn woolyard_viscosity(thousandths: u64, factor: &mut u64) -> u64
    ensures { ViscosityAnswers thousandths result factor.new }
{
    let reply = viscosity::excess_factor(thousandths);
    let told = ExcessFigures::from(reply);
    *factor = told.factor;
    told.number
}

// A whole sheet: the array gets the number of its state lines, or the place and the length of its faulty
// line.
#[unsafe(no_mangle)]
pub extern "C" fn woolyard_sheet(sheet: &[u8], reading: &mut [u64; 3]) -> u64
    ensures { SheetAnswers sheet.now result reading.new }
{
    let reply = reader::read(sheet);
    let told = SheetFigures::from(reply);
    let line_length = faulty_line_length(sheet, reply);
    *reading = [told.state_lines, told.place as u64, line_length as u64];
    told.number
}

// State line k of a sheet: the array gets its fluid, temperature and pressure.
#[unsafe(no_mangle)]
pub extern "C" fn woolyard_sheet_line(sheet: &[u8], k: u64, state: &mut [u64; 3]) -> u64
    ensures { LineAnswers sheet.now k result state.new }
{
    let reply = reader::state_line(sheet, k);
    let told = LineFigures::from(reply);
    *state = [told.fluid, told.millikelvin, told.pascals];
    told.number
}

// The next state line of a sheet from a cursor on, which any numbers may be: the second array gets its fluid,
// temperature and pressure, and the cursor moves behind it.
#[unsafe(no_mangle)]
pub extern "C" fn woolyard_sheet_next(
    sheet: &[u8],
    cursor: &mut [u64; 3],
    state: &mut [u64; 3],
) -> u64
    ensures { NextAnswers sheet.now cursor.old result cursor.new state.new }
{
    let [begun, left, place] = *cursor;
    let from = Cursor {
        begun,
        left,
        place: place as usize,
    };
    match reader::next(sheet, from) {
        Ok(Some(told)) => {
            let line = told.state;
            let after = told.after;
            *cursor = [after.begun, after.left, after.place as u64];
            *state = [line.fluid, line.millikelvin, line.pascals];
            0
        }
        Ok(None) => {
            *state = [0; 3];
            16
        }
        Err(Fault::Malformed { place: _ }) => {
            *state = [0; 3];
            6
        }
        Err(Fault::TooLong) => {
            *state = [0; 3];
            7
        }
    }
}

// A part of a sheet, up to the end of a state line or to its own: the first array gets what is kept of the sheet,
// the second the line and the reply to its state, and the caller's place how many bytes were taken.
#[unsafe(no_mangle)]
pub extern "C" fn woolyard_parts_take(
    parts: &mut [u64; 8],
    part: &[u8],
    taken: &mut u64,
    answer: &mut [u64; 9],
) -> u64
    ensures { TakeAnswers parts.old part.now result parts.new taken.new answer.new }
{
    let before = kept::reader(parts);
    let reply = parts::take(before, part);
    let after = reply.reader;
    *parts = kept::numbers(after);
    *taken = reply.taken as u64;
    lay_line(reply.brought, answer);
    reply.number()
}

// What is to be said of that sheet if it is over here: the array gets the number of its state lines, or the place of
// its fault.
#[unsafe(no_mangle)]
pub extern "C" fn woolyard_parts_end(parts: &[u64; 8], reading: &mut [u64; 2]) -> u64
    ensures { EndAnswers parts.now result reading.new }
{
    let reader = kept::reader(parts);
    let told = SheetFigures::from(parts::end(reader));
    *reading = [told.state_lines, told.place as u64];
    told.number
}

// One page about a whole sheet: the array gets a row of eleven numbers for each fluid, and the caller's place that of a
// fault.
#[unsafe(no_mangle)]
pub extern "C" fn woolyard_report(sheet: &[u8], report: &mut [[u64; 11]; 3], place: &mut u64) -> u64
    ensures { ReportAnswers sheet.now result report.new place.new }
{
    let reply = reports::report(sheet);
    lay_report(reply, report, place)
}

// A part of such a sheet: the array gets what is kept of it, with its report so far.
#[unsafe(no_mangle)]
pub extern "C" fn woolyard_report_take(reporting: &mut [[u64; 11]; 4], part: &[u8]) -> u64
    ensures { ReportTakeAnswers reporting.old part.now result reporting.new }
{
    let before = kept_reports::reporting(reporting);
    let after = reports::take(before, part);
    *reporting = kept_reports::kept_rows(after);
    parts::number(after.reader)
}

// The report of that sheet if it is over here.
#[unsafe(no_mangle)]
pub extern "C" fn woolyard_report_end(
    reporting: &[[u64; 11]; 4],
    report: &mut [[u64; 11]; 3],
    place: &mut u64,
) -> u64
    ensures { ReportEndAnswers reporting.now result report.new place.new }
{
    let kept = kept_reports::reporting(reporting);
    let reply = reports::end(kept);
    lay_report(reply, report, place)
}

// A sheet written from lists: the buffer gets it, and the caller's place its length.
#[unsafe(no_mangle)]
pub extern "C" fn woolyard_write_sheet(
    hydrogen_millikelvin: &[u64],
    hydrogen_pascals: &[u64],
    oxygen_millikelvin: &[u64],
    oxygen_pascals: &[u64],
    nitrogen_millikelvin: &[u64],
    nitrogen_pascals: &[u64],
    buffer: &mut [u8],
    length: &mut u64,
) -> u64
    ensures { WriteAnswers (fluids_of hydrogen_millikelvin.now hydrogen_pascals.now oxygen_millikelvin.now oxygen_pascals.now nitrogen_millikelvin.now nitrogen_pascals.now) buffer.old result length.new buffer.new }
{
    let lists = Lists {
        hydrogen: Columns {
            millikelvin: hydrogen_millikelvin,
            pascals: hydrogen_pascals,
        },
        oxygen: Columns {
            millikelvin: oxygen_millikelvin,
            pascals: oxygen_pascals,
        },
        nitrogen: Columns {
            millikelvin: nitrogen_millikelvin,
            pascals: nitrogen_pascals,
        },
    };
    let reply = writer::write(lists, buffer);
    let told = WriteFigures::from(reply);
    *length = told.length as u64;
    told.number
}

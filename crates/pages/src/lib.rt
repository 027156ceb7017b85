// The page about a whole sheet, which the program `report` prints (docs/RULES.md, "What the programs
// print"): a heading and eleven rows, each a label and a figure of each section, in columns. Each private
// function fills some columns of the buffer from a place on, and answers the place behind them.
#![tactic(auto)]

ghost use Rattle.std.specs.Prelude.{◌≡◌, ◌+◌, ◌≤◌, length};
ghost use Rattle.sheets.specs.Grammar.{digits};
ghost use Rattle.buffers.specs.Puts.{most_digits};
ghost use Rattle.pages.specs.Columns.{label_columns, cell_columns, line_bytes, spaces, left_aligned, right_aligned};
ghost use Rattle.pages.specs.Pages.{heading, kinds, refusals, densities, page_text, page_bytes};
ghost use Rattle.pages.specs.Filling.{Fills, RowFills, RowsFill, rows_bytes};

use buffers::{MOST_DIGITS, put, put_number};
use tallies::{Report, Section};

// The longest label has 24 letters.
const LABEL_COLUMNS: usize = 24;

// A number of 64 bits, and a space before it.
const CELL_COLUMNS: usize = 1 + MOST_DIGITS;

// A label, a cell for each section and the line's end.
const LINE_BYTES: usize = LABEL_COLUMNS + 3 * CELL_COLUMNS + 1;

// The heading, and a line for each row.
pub const PAGE_BYTES: usize = 12 * LINE_BYTES;

// No gap is wider than the columns of a label.
fn put_spaces(buffer: &mut [u8], at: usize, many: usize) -> usize
    requires { (many ≤ label_columns) × (at + many ≤ length buffer.old) }
    ensures { Fills many (spaces many) buffer.old at buffer.new result }
{
    let widest = [b' '; LABEL_COLUMNS];
    put(buffer, at, &widest[..many])
}

fn put_label(buffer: &mut [u8], at: usize, label: &[u8]) -> usize
    requires { (length label.now ≤ label_columns) × (at + label_columns ≤ length buffer.old) }
    ensures { Fills label_columns (left_aligned label_columns label.now) buffer.old at buffer.new result }
{
    let end = put(buffer, at, label);
    put_spaces(buffer, end, LABEL_COLUMNS - label.len())
}

fn put_cell(buffer: &mut [u8], at: usize, text: &[u8]) -> usize
    requires { (length text.now ≤ cell_columns) × (at + cell_columns ≤ length buffer.old) }
    ensures { Fills cell_columns (right_aligned cell_columns text.now) buffer.old at buffer.new result }
{
    let begin = put_spaces(buffer, at, CELL_COLUMNS - text.len());
    put(buffer, begin, text)
}

// How wide a number is, and with it how many spaces stand before it, is known once it is written.
fn put_figure(buffer: &mut [u8], at: usize, number: u64) -> usize
    requires { at + cell_columns ≤ length buffer.old }
    ensures { Fills cell_columns (right_aligned cell_columns (digits most_digits number)) buffer.old at buffer.new result }
{
    let mut text = [0u8; MOST_DIGITS];
    let width = put_number(&mut text, 0, number);
    put_cell(buffer, at, &text[..width])
}

fn put_heading(buffer: &mut [u8]) -> usize
    requires { line_bytes ≤ length buffer.old }
    ensures { Fills line_bytes heading buffer.old 0 buffer.new result }
{
    let first = put_label(buffer, 0, b"gas densities in g/m3");
    let second = put_cell(buffer, first, b"hydrogen");
    let third = put_cell(buffer, second, b"oxygen");
    let heading_end = put_cell(buffer, third, b"nitrogen");
    put(buffer, heading_end, b"\n")
}

// The figure of each section, behind a label.
fn put_row<F: Fn(Section) -> u64>(
    buffer: &mut [u8],
    at: usize,
    label: &[u8],
    report: Report,
    figure: F,
) -> usize
    requires fits { (length label.now ≤ label_columns) × (at + line_bytes ≤ length buffer.old) }
    requires callable { F.IsAlwaysCallable figure }
    ensures { RowFills (F.post figure) label.now report buffer.old at buffer.new result }
{
    let first = put_label(buffer, at, label);
    let second = put_figure(buffer, first, figure(report.hydrogen));
    let third = put_figure(buffer, second, figure(report.oxygen));
    let row_end = put_figure(buffer, third, figure(report.nitrogen));
    put(buffer, row_end, b"\n")
}

fn put_kinds(buffer: &mut [u8], at: usize, report: Report) -> usize
    requires { at + rows_bytes kinds ≤ length buffer.old }
    ensures { RowsFill report kinds buffer.old at buffer.new result }
{
    let split = put_row(buffer, at, b"ONE", report, |section| section.one);
    put_row(buffer, split, b"SPLIT", report, |section| section.split)
}

fn put_refusals(buffer: &mut [u8], at: usize, report: Report) -> usize
    requires { at + rows_bytes refusals ≤ length buffer.old }
    ensures { RowsFill report refusals buffer.old at buffer.new result }
{
    let too_hot = put_row(
        buffer,
        at,
        b"NO 21, too cold",
        report,
        |section| section.temperature_too_low,
    );
    let too_low = put_row(
        buffer,
        too_hot,
        b"NO 22, too hot",
        report,
        |section| section.temperature_too_high,
    );
    let too_high = put_row(
        buffer,
        too_low,
        b"NO 31, pressure too low",
        report,
        |section| section.pressure_too_low,
    );
    put_row(
        buffer,
        too_high,
        b"NO 32, pressure too high",
        report,
        |section| section.pressure_too_high,
    )
}

// Below the smallest and the largest density stands the line of the first state that reaches it.
fn put_densities(buffer: &mut [u8], at: usize, report: Report) -> usize
    requires { at + rows_bytes densities ≤ length buffer.old }
    ensures { RowsFill report densities buffer.old at buffer.new result }
{
    let smallest = put_row(
        buffer,
        at,
        b"sum of gas densities",
        report,
        |section| section.sum,
    );
    let smallest_line = put_row(
        buffer,
        smallest,
        b"smallest gas density",
        report,
        |section| section.smallest.density,
    );
    let largest = put_row(
        buffer,
        smallest_line,
        b"first on line",
        report,
        |section| section.smallest.line,
    );
    let largest_line = put_row(
        buffer,
        largest,
        b"largest gas density",
        report,
        |section| section.largest.density,
    );
    put_row(
        buffer,
        largest_line,
        b"first on line",
        report,
        |section| section.largest.line,
    )
}

fn put_page(buffer: &mut [u8], report: Report) -> usize
    requires { page_bytes ≤ length buffer.old }
    ensures { Fills page_bytes (page_text report) buffer.old 0 buffer.new result }
{
    let kinds = put_heading(buffer);
    let refusals = put_kinds(buffer, kinds, report);
    let densities = put_refusals(buffer, refusals, report);
    put_densities(buffer, densities, report)
}

// The whole buffer is the page.
pub fn page(report: Report, buffer: &mut [u8; PAGE_BYTES])
    ensures { buffer.new ≡ page_text report }
{
    put_page(buffer, report);
}

// Prints what `reader` answers to each sheet of standard input, one a line: the number, the state lines and
// the place of the whole sheet, its faulty line between brackets, and then the number, the state and the
// place for each of its state lines, for the one past the last and for the largest number there is. A
// sheet ends at a `~`, which no sheet here holds. Last it prints how many sheets there were. The gate
// holds the output to what another implementation answers (host/checks/stored makes that again).
#![tactic(auto)]

use readings::{LineFigures, SheetFigures};
use std::io;
use std::io::{Cursor, Read};

const LONGEST_INPUT: usize = 65_536;

const SHEET_END: u8 = b'~';

fn print_state_line(rt: &impl Print, sheet: &[u8], k: u64) {
    let figures = LineFigures::from(reader::state_line(sheet, k));
    let _ = print!(rt;
        " | {} {} {} {} {}",
        figures.number, figures.fluid, figures.millikelvin, figures.pascals, figures.place
    );
}

fn print_sheet(rt: &impl Print, sheet: &[u8]) {
    let figures = SheetFigures::from(reader::read(sheet));
    let _ = print!(rt;
        "{} {} {} [",
        figures.number, figures.state_lines, figures.place
    );
    let _ = rt.write_all(reader::faulty_line(sheet));
    let _ = print!(rt; "]");
    for k in 0..figures.state_lines {
        print_state_line(rt, sheet, k);
    }
    print_state_line(rt, sheet, figures.state_lines);
    print_state_line(rt, sheet, u64::MAX);
    let _ = println!(rt);
}

fn ends_sheet(byte: &u8) -> bool {
    *byte == SHEET_END
}

fn print_sheets(rt: &impl Print, text: &[u8]) {
    for sheet in text.split_inclusive(ends_sheet) {
        print_sheet(rt, sheet.strip_suffix(&[SHEET_END]).unwrap_or(sheet));
    }
    let _ = println!(rt; "{} sheets", text.split_inclusive(ends_sheet).count());
}

fn main(rt: HostRuntime) {
    // Of an input that fails, what came before counts. Where a write fails, its text is lost and the
    // next is tried. Neither changes the status: the gate compares the lines.
    let mut input = Cursor::new([0u8; LONGEST_INPUT]);
    let _ = io::copy(&mut rt.stdin().take(LONGEST_INPUT as u64), &mut input);
    let length = (input.position() as usize).min(LONGEST_INPUT);
    print_sheets(&rt, &input.get_ref()[..length]);
}

// A section's lines put into a buffer that has room for them, one behind another. Each function answers the
// place behind what it put.
ghost use Rattle.buffers.specs.Puts.{Holds};
ghost use Rattle.sheets.specs.Grammar.{section};
ghost use Rattle.measures.specs.Columns.{paired};
ghost use Rattle.measures.specs.Inside.{state_line};
ghost use Rattle.writer.specs.Inside.{StateFits, SectionFits};

use buffers::{put, put_number};
use measures::Columns;

fn put_state(buffer: &mut [u8], at: usize, millikelvin: u64, pascals: u64) -> usize
    requires { StateFits millikelvin pascals buffer.old at }
    ensures { Holds (state_line millikelvin pascals) buffer.old at buffer.new result }
{
    let temperature_end = put_number(buffer, at, millikelvin);
    let pressure_start = put(buffer, temperature_end, b" ");
    let pressure_end = put_number(buffer, pressure_start, pascals);
    put(buffer, pressure_end, b"\n")
}

pub(crate) fn put_section(buffer: &mut [u8], at: usize, columns: Columns) -> usize
    requires { SectionFits columns.millikelvin.now columns.pascals.now buffer.old at }
    ensures { Holds (section (paired columns.entry.millikelvin.now columns.entry.pascals.now)) buffer.old at buffer.new result }
{
    let count_end = put_number(buffer, at, columns.millikelvin.len() as u64);
    let mut end = put(buffer, count_end, b"\n");
    for (&temperature, &pressure) in columns.millikelvin.iter().zip(columns.pascals) {
        end = put_state(buffer, end, temperature, pressure);
    }
    end
}

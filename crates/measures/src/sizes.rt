// How long a section is.
ghost use Rattle.sheets.specs.Grammar.{Writable};
ghost use Rattle.measures.specs.Inside.{Width, MakesSection, SectionLength};

use crate::lists::Columns;

// How many digits a number of at most ten has. The loop counts these, no index; the library has no ilog10.
fn width(number: u64) -> usize
    requires { Writable number }
    ensures { Width number result }
{
    let mut width = 1;
    // the smallest number of more digits
    let mut above = 10;
    while above <= number {
        above *= 10;
        width += 1;
    }
    width
}

// A count line, and the state lines behind it: every line has its end, and a state line its space.
pub(crate) fn section_length(columns: Columns) -> usize
    requires { MakesSection columns.millikelvin.now columns.pascals.now }
    ensures { SectionLength columns.entry.millikelvin.now columns.entry.pascals.now result }
{
    let mut length = width(columns.millikelvin.len() as u64) + 1;
    for (&temperature, &pressure) in columns.millikelvin.iter().zip(columns.pascals) {
        length += width(temperature) + width(pressure) + 2;
    }
    length
}

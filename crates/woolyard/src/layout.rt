// What a sheet's reading lays before its caller, beyond what the libraries already tell.
ghost use Rattle.std.specs.Prelude.{◌≡◌, length};
ghost use Rattle.readings.specs.Figures.{sheet_figures};
ghost use Rattle.readings.specs.Replies.{ReadsAs, shown};

use readings::Reading;
use sheets::Fault;

// The faulty line is looked for only where there is one, so that a good sheet is read once.
pub(crate) fn faulty_line_length(sheet: &[u8], reading: Reading) -> usize
    requires { ReadsAs sheet.now (sheet_figures reading) }
    ensures { result ≡ length (shown sheet.now (sheet_figures reading)) }
{
    match reading {
        Ok(_) => 0,
        Err(Fault::Malformed { place: _ }) => reader::faulty_line(sheet).len(),
        Err(Fault::TooLong) => 0,
    }
}

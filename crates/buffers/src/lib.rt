// Texts put into a lent buffer, one behind another: bytes as they are, and numbers in decimal. A text that
// has room from a place on is written there, and where it has none nothing is written; what lies before it and
// behind it stays as it was.
// The place stands beside the buffer, as a parameter: a struct of both would keep the buffer borrowed from one
// text to the next, and a contract would name the buffer and the place in it all the same.
#![tactic(auto)]

ghost use Rattle.sheets.specs.Grammar.{digits};
ghost use Rattle.buffers.specs.Puts.{most_digits, Puts};

// A number of 64 bits has at most 20 digits.
pub const MOST_DIGITS: usize = 20;

// Answers the place behind the text, or the place itself where there is no room.
pub fn put(buffer: &mut [u8], at: usize, text: &[u8]) -> usize
    ensures { Puts text.now buffer.old at buffer.new result }
{
    if buffer.len() < at {
        return at;
    }
    if buffer.len() - at < text.len() {
        return at;
    }
    let end = at + text.len();
    buffer[at..end].copy_from_slice(text);
    end
}

// The same for a number, by as few digits as it has.
pub fn put_number(buffer: &mut [u8], at: usize, number: u64) -> usize
    ensures { Puts (digits most_digits number) buffer.old at buffer.new result }
{
    let mut text = [0u8; MOST_DIGITS];
    let count = io::decimal(number, &mut text);
    put(buffer, at, &text[..count])
}

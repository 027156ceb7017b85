// A line of output (docs/RULES.md, "What the programs print"): a word and numbers, a single space before
// each number and byte 10 after the last. It is gathered in one buffer: each private function puts some of
// it at a place, and answers the place behind it.
#![tactic(auto)]

ghost use Rattle.std.specs.Prelude.{◌≡◌, ◌+◌, ◌≤◌, length};
ghost use Rattle.buffers.specs.Puts.{Holds};
ghost use Rattle.texts.specs.Texts.{spaced, numbers_text};
ghost use Rattle.texts.specs.Buffer.{longest_line, bytes_of, Written, Fitted};

use buffers::{MOST_DIGITS, put, put_number};

// SPLIT and SHEET are the longest words.
const LONGEST_WORD: usize = 5;

// A SPLIT line has a root and a density of either side.
const MOST_NUMBERS: usize = 4;

// A word, numbers with a space before each, and the line's end.
pub const LONGEST_LINE: usize = LONGEST_WORD + MOST_NUMBERS * (1 + MOST_DIGITS) + 1;

// The line is the first bytes, as many as the length says. What lies behind them is not told.
#[derive(Clone, Copy)]
pub struct Text {
    pub bytes: [u8; LONGEST_LINE],
    pub length: usize,
}

impl Text {
    // A length past the buffer, which `line` never writes, stands for all of the buffer.
    pub fn bytes(&self) -> &[u8]
        ensures line { result.now ≡ bytes_of self.now }
        ensures short { length result.now ≤ longest_line }
    {
        &self.bytes[..self.length.min(LONGEST_LINE)]
    }
}

fn put_spaced(buffer: &mut [u8], at: usize, number: u64) -> usize
    requires { at + length (spaced number) ≤ length buffer.old }
    ensures { Holds (spaced number) buffer.old at buffer.new result }
{
    let digits = put(buffer, at, b" ");
    put_number(buffer, digits, number)
}

fn put_numbers(buffer: &mut [u8], at: usize, numbers: &[u64]) -> usize
    requires { at + length (numbers_text numbers.now) ≤ length buffer.old }
    ensures { Holds (numbers_text numbers.now) buffer.old at buffer.new result }
{
    let mut end = at;
    for &number in numbers {
        end = put_spaced(buffer, end, number);
    }
    end
}

// The word, the numbers in their order, and the line's end. A line has room for a word of five letters and four
// numbers; with more than that it is empty.
pub fn line(word: &[u8], numbers: &[u64]) -> Text
    ensures { Written (Fitted word.now numbers.now) result }
{
    let mut bytes = [0u8; LONGEST_LINE];
    if LONGEST_WORD < word.len() {
        return Text { bytes, length: 0 };
    }
    if MOST_NUMBERS < numbers.len() {
        return Text { bytes, length: 0 };
    }
    let word_end = put(&mut bytes, 0, word);
    let numbers_end = put_numbers(&mut bytes, word_end, numbers);
    let length = put(&mut bytes, numbers_end, b"\n");
    Text { bytes, length }
}

// What a line's bytes come to, taken one at a time (docs/RULES.md, "Sheets"). A line of either kind is
// read by the same steps, and a digest may be kept between two parts of a line.
#![tactic(auto)]

ghost use Rattle.std.specs.Prelude.{◌≡◌, drop};
ghost use Rattle.sheets.specs.Digests.{opens, grows, first_of, second_of, takes, scans};
ghost use Rattle.digests.specs.Inside.{Runs, GoesOn};

use sheets::{Digest, Scanned};

const LINE_END: u8 = 10;

const SPACE: u8 = 32;

const ZERO: u8 = 48;

const NINE: u8 = 57;

// The smallest number of ten digits: any below it may take one more.
const TEN_DIGITS: u64 = 1_000_000_000;

// A number's first digit.
fn opened(byte: u8) -> Option<u64>
    ensures { result ≡ opens byte }
{
    if byte < ZERO {
        return None;
    }
    if NINE < byte {
        return None;
    }
    Some((byte - ZERO) as u64)
}

// A number's next digit. Nothing follows a leading zero, and nothing a tenth digit.
fn grown(number: u64, byte: u8) -> Option<u64>
    ensures { result ≡ grows number byte }
{
    if number == 0 {
        return None;
    }
    if TEN_DIGITS <= number {
        return None;
    }
    let digit = opened(byte)?;
    Some(10 * number + digit)
}

fn first(number: Option<u64>) -> Digest
    ensures { result ≡ first_of number }
{
    number.map_or(Digest::Bad, Digest::First)
}

fn second(first: u64, number: Option<u64>) -> Digest
    ensures { result ≡ second_of first number }
{
    number.map_or(Digest::Bad, |second| Digest::Second { first, second })
}

// One byte more, which is no line's end.
fn taken(digest: Digest, byte: u8) -> Digest
    ensures { result ≡ takes digest byte }
{
    match digest {
        Digest::Empty => first(opened(byte)),
        Digest::First(number) => {
            if byte == SPACE {
                return Digest::AfterSpace(number);
            }
            first(grown(number, byte))
        }
        Digest::AfterSpace(number) => second(number, opened(byte)),
        Digest::Second {
            first: before,
            second: number,
        } => second(before, grown(number, byte)),
        Digest::Bad => Digest::Bad,
    }
}

// A number with the digits that follow it, and how many those are.
#[derive(Clone, Copy)]
struct Run {
    number: u64,
    digits: usize,
}

// Takes digits from the start of the bytes, as many as the number may have. Here most bytes of a sheet are taken, with
// nothing asked but whether the number goes on.
fn take_digits(rest: &[u8], number: u64) -> Run
    ensures { Runs rest.now number result }
{
    let mut number = number;
    for (digits, byte) in rest.iter().enumerate() {
        match grown(number, *byte) {
            Some(more) => {
                number = more;
            }
            None => {
                return Run { number, digits };
            }
        }
    }
    Run {
        number,
        digits: rest.len(),
    }
}

// A digest, and how many bytes were taken.
#[derive(Clone, Copy)]
struct Onward {
    digest: Digest,
    taken: usize,
}

// Behind a byte that was taken: where it left a number, the digits that follow are taken at once.
fn go_on(rest: &[u8], digest: Digest) -> Onward
    ensures { GoesOn rest.now digest result }
{
    match digest {
        Digest::Empty => Onward { digest, taken: 0 },
        Digest::First(number) => {
            let run = take_digits(rest, number);
            Onward {
                digest: Digest::First(run.number),
                taken: run.digits,
            }
        }
        Digest::AfterSpace(_) => Onward { digest, taken: 0 },
        Digest::Second { first, second } => {
            let run = take_digits(rest, second);
            Onward {
                digest: Digest::Second {
                    first,
                    second: run.number,
                },
                taken: run.digits,
            }
        }
        Digest::Bad => Onward { digest, taken: 0 },
    }
}

// The same digest, made anew case by case: bytes of it that its case does not use are then not copied along, for which
// the processor would wait.
fn renewed(digest: Digest) -> Digest
    ensures { result ≡ digest }
{
    match digest {
        Digest::Empty => Digest::Empty,
        Digest::First(number) => Digest::First(number),
        Digest::AfterSpace(number) => Digest::AfterSpace(number),
        Digest::Second { first, second } => Digest::Second { first, second },
        Digest::Bad => Digest::Bad,
    }
}

// Takes bytes from a place on, up to a line's end. The digest before is Empty where the line begins.
pub fn scan(bytes: &[u8], place: usize, before: Digest) -> Scanned
    ensures { result ≡ scans place before (drop place bytes.now) }
{
    let mut digest = renewed(before);
    let mut end = place;
    // The digits behind a byte are taken with it, so no `for` goes from byte to byte.
    while end < bytes.len() {
        let byte = bytes[end];
        let next = end + 1;
        if byte == LINE_END {
            return Scanned { digest, end, next };
        }
        let longer = taken(digest, byte);
        let on = go_on(&bytes[next..], longer);
        digest = on.digest;
        end = next + on.taken;
    }
    Scanned {
        digest,
        end,
        next: end,
    }
}

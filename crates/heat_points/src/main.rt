// Prints what `heat::ideal_heat_capacity` answers for each line of standard input, a double by its
// pattern of 64 bits in hexadecimal: the pattern of the answer, or NO and the number of the refusal.
// Last it prints how many lines there were. The gate holds the output to what another implementation
// answers (host/checks/stored makes that again).
#![tactic(auto)]

ghost use Rattle.std.specs.Prelude.{◌≡◌, ◌<◌, IfSome};
ghost use Rattle.std.specs.Float.{binary64};
ghost use Rattle.std.specs.Float.Ieee.{of_bits};

use heat::HeatCapacity;
use std::io;
use std::io::{Cursor, Read};

const LONGEST_INPUT: usize = 65_536;

const SIGN: u64 = 0x8000_0000_0000_0000;

const INFINITY: u64 = 0x7ff0_0000_0000_0000;

fn digit(byte: u8) -> Option<u64>
    ensures { IfSome result (λ digit. digit < 16) }
{
    match byte {
        b'0'..=b'9' => Some(u64::from(byte - b'0')),
        b'a'..=b'f' => Some(u64::from(byte - b'a') + 10),
        _ => None,
    }
}

// Of more than 16 digits the last 16 count.
fn pattern(line: &[u8]) -> u64 {
    line.iter()
        .filter_map(|&byte| digit(byte))
        .fold(0, |bits, digit| (bits << 4) | digit)
}

// Every NaN is 0 / 0 here: the language makes none from its bits, since no answer may depend on which
// NaN it is.
fn double_of(bits: u64) -> f64
    ensures { result ≡ of_bits binary64 bits }
{
    if INFINITY < bits % SIGN {
        return 0.0 / 0.0;
    }
    f64::from_bits(bits)
}

fn print_point(rt: &impl Print, bits: u64) {
    let reply = heat::ideal_heat_capacity(double_of(bits));
    let _ = match reply {
        HeatCapacity::KilojoulesPerKilogramKelvin(heat) => {
            println!(rt; "{bits:016x} {:016x}", heat.to_bits())
        }
        HeatCapacity::OutOfRange => println!(rt; "{bits:016x} NO {}", reply.number()),
    };
}

// Any byte that is no digit ends a line.
fn ends_line(byte: &u8) -> bool {
    digit(*byte).is_none()
}

fn print_points(rt: &impl Print, text: &[u8]) {
    for line in text.split_inclusive(ends_line) {
        print_point(rt, pattern(line));
    }
    let _ = println!(rt; "{} points", text.split_inclusive(ends_line).count());
}

fn main(rt: HostRuntime) {
    // Of an input that fails, what came before counts. Where a write fails, its text is lost and the
    // next is tried. Neither changes the status: the gate compares the lines.
    let mut input = Cursor::new([0u8; LONGEST_INPUT]);
    let _ = io::copy(&mut rt.stdin().take(LONGEST_INPUT as u64), &mut input);
    let length = (input.position() as usize).min(LONGEST_INPUT);
    print_points(&rt, &input.get_ref()[..length]);
}

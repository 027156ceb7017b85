// Prints what `engine::solve` answers for each point of standard input, a line "a b start", and last
// how many points there were. The gate holds the output to what a scan of the whole grid answers
// (host/checks/stored makes that again).
#![tactic(auto)]

ghost use Rattle.std.specs.Prelude.{◌-◌, ◌≤◌, length};
ghost use Rattle.std.specs.Iterator.{at_most};

use engine::Roots;
use std::io;
use std::io::{Cursor, Read};

const LONGEST_INPUT: usize = 65_536;

#[derive(Clone, Copy)]
struct Point {
    a: u64,
    b: u64,
    start: u64,
}

// The points that a text still has. Any byte that is no digit ends a number, and one that is missing is 0.
#[derive(Drop)]
struct Points<'a> {
    rest: &'a [u8],
}

impl Points<'_> {
    // The largest number where 64 bits do not hold the next one.
    fn number(&mut self) -> u64
        ensures { length self.new.rest.now ≤ length self.old.rest.now - 1 }
    {
        let end = self.rest.iter().position(|byte| !byte.is_ascii_digit());
        let (digits, others) = self.rest.split_at(end.unwrap_or(self.rest.len()));
        self.rest = others.get(1..).unwrap_or(&[]);
        digits.iter().fold(0u64, |value, byte| {
            let digit = u64::from(byte.wrapping_sub(b'0'));
            value.saturating_mul(10).saturating_add(digit)
        })
    }
}

impl Iterator for Points<'_> {
    type Item = Point;

    ghost remaining = { λ points. at_most (length points.rest.now) };

    fn next(&mut self) -> Option<Point> {
        if self.rest.is_empty() {
            return None;
        }
        Some(Point {
            a: self.number(),
            b: self.number(),
            start: self.number(),
        })
    }
}

fn print_point(rt: &impl Print, point: Point) {
    let Point { a, b, start } = point;
    let _ = match engine::solve(a, b, start) {
        Some(Roots { gas, dense }) if gas == dense => println!(rt; "{a} {b} {start} ONE {gas}"),
        Some(Roots { gas, dense }) => println!(rt; "{a} {b} {start} SPLIT {gas} {dense}"),
        None => println!(rt; "{a} {b} {start} OUT OF BOUNDS"),
    };
}

fn print_points(rt: &impl Print, text: &[u8]) {
    for point in (Points { rest: text }) {
        print_point(rt, point);
    }
    let _ = println!(rt; "{} points", Points { rest: text }.count());
}

fn main(rt: HostRuntime) {
    // Of an input that fails, what came before counts. Where a write fails, its text is lost and the
    // next is tried. Neither changes the status: the gate compares the lines.
    let mut input = Cursor::new([0u8; LONGEST_INPUT]);
    let _ = io::copy(&mut rt.stdin().take(LONGEST_INPUT as u64), &mut input);
    let length = (input.position() as usize).min(LONGEST_INPUT);
    print_points(&rt, &input.get_ref()[..length]);
}

// Prints what `state::ask_with_book` answers to some thousands of states, every call on one book that
// begins full of misleading numbers. A line is a question, "fluid millikelvin pascals slot", and then the
// number and the five figures of the reply. The first line is the book before, byte for byte, the last two
// are the book after and how many states there were. The gate holds the output to what a second implementation
// answers, which never looks at a book (host/checks/stored makes that again).
#![tactic(auto)]

mod tables;

ghost use Rattle.std.specs.Prelude.{◌≡◌, ◌*◌, ◌<◌};

use crate::tables::{MISLEADING, PRESSURES, SINGLE, TEMPERATURES};
use books::BOOK_BYTES;
use state::Figures;

const SLOTS: u64 = 64;

const FLUIDS: u64 = 3;

const RANDOM: u64 = 1_000;

// A fluid, its millikelvin and pascals, and the slot.
type Question = (u64, u64, u64, u64);

// Each slot says the misleading number of its place.
fn mislead(book: &mut [u8]) {
    for (slot, &root) in (0..SLOTS).zip(&MISLEADING) {
        let _ = books::leave(book, slot, root);
    }
}

fn print_book(rt: &impl Print, book: &[u8]) {
    let _ = print!(rt; "book");
    for byte in book {
        let _ = print!(rt; " {byte}");
    }
    let _ = println!(rt);
}

fn print_state(rt: &impl Print, question: Question, book: &mut [u8]) {
    let (fluid, millikelvin, pascals, slot) = question;
    let reply = state::ask_with_book(fluid, millikelvin, pascals, slot, book);
    let figures = Figures::from(reply);
    let _ = print!(rt; "{fluid} {millikelvin} {pascals} {slot} {}", figures.number);
    let _ = print!(rt;
        " {} {} {}",
        figures.kind, figures.gas_root, figures.dense_root
    );
    let _ = println!(rt; " {} {}", figures.gas_density, figures.dense_density);
}

// Every pair of the two tables, for one fluid after another in the same slot: where several are answered,
// each finds another's root there. Answers how many states it asked, as `print_single` and `print_random` do.
fn print_pairs(rt: &impl Print, book: &mut [u8]) -> u64
    ensures { result ≡ 3 * 64 * 45 }
{
    let mut asked = 0;
    for (row, &millikelvin) in TEMPERATURES.iter().enumerate() {
        for (column, &pascals) in PRESSURES.iter().enumerate() {
            let slot = (row * PRESSURES.len() + column) as u64 % SLOTS;
            for fluid in 0..FLUIDS {
                print_state(rt, (fluid, millikelvin, pascals, slot), book);
                asked += 1;
            }
        }
    }
    asked
}

fn print_single(rt: &impl Print, book: &mut [u8]) -> u64
    ensures { result ≡ 14 }
{
    let mut asked = 0;
    for question in SINGLE {
        print_state(rt, question, book);
        asked += 1;
    }
    asked
}

// Park and Miller's generator: the same numbers in every run, each below the prime 2^31 - 1.
#[derive(Drop)]
struct Random {
    last: u64,
    ghost below_the_prime: { last < 2147483647 },
}

impl Random {
    fn next(&mut self) -> u64
        ensures { result < 2147483647 }
    {
        self.last = self.last * 48_271 % 2_147_483_647;
        self.last
    }

    // A state at random: a temperature and a pressure from a little above their ranges downwards, small ones
    // as often as large ones, and now and then a slot past the last.
    fn question(&mut self) -> Question {
        let fluid = fluid_from(self.next());
        let millikelvin = (self.next() % 1_048_576) >> (self.next() % 7);
        let pascals = (self.next() % 67_108_864) >> (self.next() % 14);
        (fluid, millikelvin, pascals, self.next() % (SLOTS + 2))
    }
}

// Now and then a number that no fluid has.
fn fluid_from(random: u64) -> u64 {
    match random % 16 {
        15 => FLUIDS + random % 1_000,
        choice => choice % FLUIDS,
    }
}

fn print_random(rt: &impl Print, book: &mut [u8]) -> u64
    ensures { result ≡ 1000 }
{
    let mut random = Random { last: 1 };
    let mut asked = 0;
    for _ in 0..RANDOM {
        print_state(rt, random.question(), book);
        asked += 1;
    }
    asked
}

fn print_states(rt: &impl Print, book: &mut [u8]) {
    print_book(rt, book);
    let pairs = print_pairs(rt, book);
    let single = print_single(rt, book);
    let random = print_random(rt, book);
    print_book(rt, book);
    let _ = println!(rt; "{} states", pairs + single + random);
}

fn main(rt: HostRuntime) {
    let mut book = [0u8; BOOK_BYTES];
    mislead(&mut book);
    // Where a write fails, its text is lost and the next is tried. That changes no status: the gate
    // compares the lines.
    print_states(&rt, &mut book);
}

// Runs what docs/RULES.md says of states under "Points worked through" and "Mistakes that look right", and
// the ends of each range, a line for each. The gate holds the output to the figures there, and the others to
// what the rules give. What stands in that table is proved of the definitions as well (`worked`).
#![tactic(auto)]

mod tables;

use crate::tables::{ANSWERED, BOOKS, NITROGEN, NITROGEN_ENDS, REFUSED, SPLIT, STARTS};
use engine::Roots;
use fluid::Reached;
use replies::Answer;
use state::Reply;
use std::fmt;

// What each byte of a book is before a call, its slot's own aside.
const FILLING: u8 = 7;

const LONGEST_BOOK: usize = 256;

// A fluid, its millikelvin and pascals.
#[derive(Clone, Copy)]
struct State(u64, u64, u64);

impl fmt::Display for State {
    fn fmt<W: fmt::Write>(&self, f: &mut fmt::Formatter<W>) -> fmt::Result {
        let State(fluid, millikelvin, pascals) = *self;
        write!(f, "fluid {fluid}, {millikelvin} mK, {pascals} Pa")
    }
}

fn say_coefficients(rt: &impl Print, state: State) {
    let State(fluid, millikelvin, pascals) = state;
    match fluid::reduce(fluid, millikelvin, pascals) {
        Err(refusal) => {
            let _ = print!(rt; ": NO {}", refusal.number());
        }
        Ok(Reached { fluid: _, reduced }) => {
            let _ = print!(rt; ": t {}, p {}, s {}", reduced.t, reduced.p, reduced.s);
            let _ = print!(rt; ", a {}, b {}", reduced.a, reduced.b);
        }
    }
}

fn say_reply(rt: &impl Print, reply: Reply) {
    let _ = match reply {
        Err(refusal) => print!(rt; ": NO {}", refusal.number()),
        Ok(Answer::One { root, density }) => print!(rt; ": ONE {root}, {density} g/m3"),
        Ok(
            Answer::Split {
                gas,
                dense,
                gas_density,
                dense_density,
            },
        ) => {
            print!(rt; ": SPLIT gas {gas}, {gas_density} g/m3, dense {dense}, {dense_density} g/m3")
        }
    };
}

fn asked(rt: &impl Print, state: State) {
    let State(fluid, millikelvin, pascals) = state;
    let _ = print!(rt; "{state}");
    say_reply(rt, state::ask(fluid, millikelvin, pascals));
    let _ = println!(rt);
}

// The same with the coefficients.
fn worked_through(rt: &impl Print, state: State) {
    let State(fluid, millikelvin, pascals) = state;
    let _ = print!(rt; "{state}");
    say_coefficients(rt, state);
    say_reply(rt, state::ask(fluid, millikelvin, pascals));
    let _ = println!(rt);
}

// The start in a slot, as far as the book has its bytes.
fn put(book: &mut [u8], slot: u8, start: u64) {
    let first = 3 * usize::from(slot);
    let bytes = start.to_le_bytes();
    for (held, &byte) in book.iter_mut().skip(first).zip(&bytes[..3]) {
        *held = byte;
    }
}

// Names each byte of the book that is not the filling.
fn say_book(rt: &impl Print, book: &[u8]) {
    for (place, &byte) in book.iter().enumerate() {
        if byte != FILLING {
            let _ = print!(rt; "; byte {place} is {byte}");
        }
    }
}

// Asks with a book full of the filling, but for the start in the slot, if it has those bytes; and says what
// it holds after the call.
fn asked_with(rt: &impl Print, length: usize, state: State, slot: u8, start: u64) {
    let State(fluid, millikelvin, pascals) = state;
    let mut room = [FILLING; LONGEST_BOOK];
    let book = &mut room[..length.min(LONGEST_BOOK)];
    put(book, slot, start);
    let _ = print!(rt; "{state}, slot {slot} of {length} bytes, start {start}");
    let reply = state::ask_with_book(fluid, millikelvin, pascals, u64::from(slot), book);
    say_reply(rt, reply);
    say_book(rt, book);
    let _ = println!(rt);
}

fn solved(rt: &impl Print, a: u64, b: u64, start: u64) {
    let _ = match engine::solve(a, b, start) {
        None => println!(rt; "a {a}, b {b}, start {start}: out of bounds"),
        Some(Roots { gas, dense }) => {
            println!(rt; "a {a}, b {b}, start {start}: gas {gas}, dense {dense}")
        }
    };
}

fn mistakes_that_look_right(rt: &impl Print) {
    let _ = print!(rt; "32976 mK for hydrogen gives b 499: ");
    worked_through(rt, State(0, 300_000, 1_000_000));
    let _ = print!(rt; "the nearest whole number gives 92696: ");
    asked(rt, SPLIT);
    let _ = print!(rt; "the nearest whole number gives 100475: ");
    asked(rt, State(0, 300_000, 1_000_000));
    let _ = print!(rt; "g = 0 as positive loses 100001: ");
    solved(rt, 0, 1, 0);
    let _ = print!(rt; "g = 0 as positive loses 100001: ");
    solved(rt, 0, 1, 100_001);
    let _ = print!(rt; "g = 0 as positive loses 100885: ");
    solved(rt, 0, 885, 0);
}

fn say_all(rt: &impl Print) {
    for state in ANSWERED {
        worked_through(rt, state);
    }
    for state in REFUSED {
        asked(rt, state);
    }
    for (length, state, slot, start) in BOOKS {
        asked_with(rt, length, state, slot, start);
    }
    for start in STARTS {
        asked_with(rt, 192, SPLIT, 5, start);
    }
    mistakes_that_look_right(rt);
    for state in NITROGEN {
        worked_through(rt, state);
    }
    for state in NITROGEN_ENDS {
        asked(rt, state);
    }
}

fn main(rt: HostRuntime) {
    // Where a write fails, its text is lost and the next is tried. That changes no status: the gate
    // compares the lines.
    say_all(&rt);
}

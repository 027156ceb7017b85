// The engine for the Redlich-Kwong cubic of docs/RULES.md: for every a and b within bounds, its largest and
// its smallest crossing, whatever the starting point holds.
#![tactic(auto)]

mod shortcuts;

ghost use Rattle.engine.specs.Promise.{Solves};

use crate::shortcuts::alone;
use cubic::{BEND, Cubic};
use searches::{dense_crossing, gas_crossing};

// The two roots of a cubic, in hundred-thousandths.
#[derive(Clone, Copy)]
pub struct Roots {
    pub gas: u64,
    pub dense: u64,
}

// The two roots of the cubic with the coefficients a and b, or none where these are out of bounds. `start` is any
// number at all: it may shorten a search and changes no answer.
//
// From the bend on there is at most one crossing, which the search from above finds, and below it at most
// one, which the search from below finds. Each tells by its side of the bend whether it found one. The second
// is not needed where the first crossing can be seen to be alone.
pub fn solve(a: u64, b: u64, start: u64) -> Option<Roots>
    ensures { Solves a b result }
{
    let cubic = Cubic::new(a, b)?;
    let high = gas_crossing(a, b, start)?;
    if alone(cubic, high) {
        return Some(Roots {
            gas: high,
            dense: high,
        });
    }
    let low = dense_crossing(a, b, start)?;
    if high < BEND {
        return Some(Roots {
            gas: low,
            dense: low,
        });
    }
    if BEND <= low {
        return Some(Roots {
            gas: high,
            dense: high,
        });
    }
    Some(Roots {
        gas: high,
        dense: low,
    })
}

// Where a search may begin. A guess is tested before it is used, so nothing is promised of it but that it
// lies on the search's side of the bend: another formula would change a time and no answer.
#![tactic(auto)]

mod steps;

ghost use Rattle.std.specs.Prelude.{◌<◌};
ghost use Rattle.cubic.specs.Promise.{Within};
ghost use Rattle.cubic.specs.Sides.{bend, GasSide};

use crate::steps::two_steps;
use cubic::{BEND, Cubic, GRID};

// For a search from above: near the gas root and hardly ever below it. The root z lies below N + b by w,
// with w z (z + b) equal to N a (z - b). So w is about N N a over (N + b) (N + 2 b), and in the next order
// N N a over that divisor less a (N - 3 b). Where this takes away more than half of the divisor it says
// little, and N + b is as good. From the bend on for b it says little too, and two steps in doubles say all.
pub fn nearer(a: u64, b: u64) -> u64
    ensures { Within a b → GasSide b result }
{
    if Cubic::new(a, b).is_none() {
        return BEND;
    }
    let last = GRID + b;
    if BEND <= b {
        let guess = two_steps(a, b, last);
        if guess < BEND {
            return last;
        }
        if last < guess {
            return last;
        }
        return guess;
    }
    let first_order = last * (last + b);
    let less = a * (GRID - 3 * b);
    if first_order / 2 < less {
        return last;
    }
    let second_order = first_order - less;
    let fallen = (GRID * GRID * a + second_order - 1) / second_order;
    if last - BEND <= fallen {
        last
    } else {
        last - fallen
    }
}

// For a search from below: mostly the dense root itself.
pub fn nearer_dense(a: u64, b: u64) -> u64
    ensures { result < bend }
{
    let guess = two_steps(a, b, b);
    if BEND <= guess {
        return 0;
    }
    guess
}

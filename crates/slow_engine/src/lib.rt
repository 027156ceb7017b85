// The slow way, kept beside the quick one (docs/RULES.md, "The walk"): the gas root of the cubic found with no
// cleverness, by a walk down the grid. It is the root that `engine` finds, and no line of its search is here.
#![tactic(auto)]

mod signed;

ghost use Rattle.slow_engine.specs.Promise.{Walks};

use crate::signed::g;
use cubic::{Cubic, GRID};

// Where a walk came to a root, with how many values of g it worked out.
#[derive(Clone, Copy)]
pub struct Walked {
    pub gas: u64,
    pub values: u64,
}

// Why a walk came to none; where it was cut short, with how many values of g it had worked out.
#[derive(Clone, Copy, Debug, PartialEq, Eq)]
pub enum WalkError {
    CutShort { values: u64 },
    OutOfBounds,
}

// Above N + b g is positive for good, so the first place down from there at which it is not is the largest
// crossing. No more values of g are worked out than the limit says. The `loop` that ends by `break` at that place is a
// form that document 01 names (docs/DECISIONS.md).
pub fn walk(a: u64, b: u64, limit: u64) -> Result<Walked, WalkError>
    ensures { Walks a b limit result }
{
    let cubic = Cubic::new(a, b).ok_or(WalkError::OutOfBounds)?;
    let mut z = GRID + cubic.b;
    let mut values = 0;
    let gas = loop {
        if limit <= values {
            return Err(WalkError::CutShort { values });
        }
        values += 1;
        if g(cubic, z) <= 0 {
            break z;
        }
        z -= 1;
    };
    Ok(Walked { gas, values })
}

// The crossings of the cubic on either side of the bend: at most one from the bend on, which a search from
// above finds, and at most one below it, which a search from below finds.
#![tactic(auto)]

mod newton;
mod sides;
mod starts;

ghost use Rattle.cubic.specs.Sides.{FallsTo, ClimbsTo};
ghost use Rattle.searches.specs.Promise.{Ends};

use crate::newton::{climb, fall};
use crate::sides::BELOW_BEND;
use crate::starts::{crosses, on_dense_side, on_gas_side, positive_from_bend};
use cubic::Cubic;
use guesses::nearer_dense;

// The crossing at the bend or above, the place below the bend if there is none, and none where a or b is out of
// bounds. A start that is that crossing spares the search, and any other is forgotten.
pub fn gas_crossing(a: u64, b: u64, start: u64) -> Option<u64>
    ensures { Ends FallsTo a b result }
{
    let cubic = Cubic::new(a, b)?;
    if on_gas_side(cubic, start) && crosses(cubic, start) {
        return Some(start);
    }
    if positive_from_bend(cubic) {
        return Some(BELOW_BEND);
    }
    Some(fall(cubic))
}

// The crossing below the bend, the bend if there is none, and none where a or b is out of bounds. A start that is
// that crossing, as where a state without a gas root from the bend on is asked again, or else a guess that is it
// spares the search, and any other is forgotten.
pub fn dense_crossing(a: u64, b: u64, start: u64) -> Option<u64>
    ensures { Ends ClimbsTo a b result }
{
    let cubic = Cubic::new(a, b)?;
    if on_dense_side(cubic, start) && crosses(cubic, start) {
        return Some(start);
    }
    let tried = nearer_dense(a, b);
    if crosses(cubic, tried) {
        return Some(tried);
    }
    Some(climb(cubic))
}

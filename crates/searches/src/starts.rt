// What is tried before anything is searched: the customer's start, which may be any number at all, or a guess, each
// tested before it is used; and whether there is anything to search for from the bend on.
ghost use Rattle.std.specs.Prelude.{◌≡◌, true, ◌-◌, ◌≤◌, ◌<◌};
ghost use Rattle.cubic.specs.Sides.{bend, farthest, GasSide, Crosses, FallsTo};

use crate::sides::{minus, plus, rise};
use cubic::{BEND, Cubic, GRID};

// Whether the customer's start lies where a gas root from the bend on can.
pub(crate) fn on_gas_side(cubic: Cubic, start: u64) -> bool
    ensures { result ≡ true → GasSide cubic.b start }
{
    if start < BEND {
        return false;
    }
    start <= GRID + cubic.b
}

// Whether it lies where a dense root below the bend can. No root lies below b.
pub(crate) fn on_dense_side(cubic: Cubic, start: u64) -> bool
    ensures { result ≡ true → start < bend }
{
    if start < cubic.b {
        return false;
    }
    start < BEND
}

// Whether z is a crossing. From the bend on there is at most one, and below it at most one, so it is then the one
// that a search on its side would end at.
pub(crate) fn crosses(cubic: Cubic, z: u64) -> bool
    requires { z < farthest }
    ensures { result ≡ true → Crosses cubic.a cubic.b z }
{
    if minus(cubic, z) < plus(cubic, z) {
        false
    } else {
        let next = z + 1;
        minus(cubic, next) < plus(cubic, next)
    }
}

// Whether g can be seen to be positive from the bend on: where it is positive at the bend and rises from there,
// it rises for good. So it is in most states that have no root but the dense one.
pub(crate) fn positive_from_bend(cubic: Cubic) -> bool
    ensures { result ≡ true → FallsTo cubic.a cubic.b (bend - 1) }
{
    if plus(cubic, BEND) <= minus(cubic, BEND) {
        return false;
    }
    0 < rise(cubic, BEND)
}

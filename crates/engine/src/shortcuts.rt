// A test that spares the search from below. It takes no step, and trusts nothing that it is given.
ghost use Rattle.std.specs.Prelude.{◌≡◌, true};
ghost use Rattle.cubic.specs.Sides.{FallsTo, Alone};

use cubic::{BEND, Cubic, GRID};

// Whether the crossing that a search from above ended at can be seen to have none below it. g less the
// line from 0 to its value at that root has it and two more, whose sum is N less the root and whose
// product is N a b over it: no two numbers have them where the square of the sum is at most four times
// the product.
pub(crate) fn alone(cubic: Cubic, gas: u64) -> bool
    requires { FallsTo cubic.a cubic.b gas }
    ensures { result ≡ true → Alone cubic.a cubic.b gas }
{
    if gas < BEND {
        return false;
    }
    // Nothing is left to N from N on.
    let sum = GRID.saturating_sub(gas);
    sum * sum * gas <= 4 * GRID * cubic.a * cubic.b
}

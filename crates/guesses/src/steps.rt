// Roots guessed in doubles, where no number is too large. The number of steps is fixed, so that there is no branch
// which a processor could foretell wrong.
ghost use Rattle.std.specs.Prelude.{◌^◌, ◌<◌};

use doubles::whole_part;
use std::num::nearest_u64_to_f64;

// So many places, as a part of the grid.
fn of_grid(places: u64) -> f64 {
    nearest_u64_to_f64(places) * 0.00001
}

// A step from z towards a root of g, all in parts of the grid. With d = g'(z), h = g''(z) / 2 and g''' = 6 Householder's
// step of the third order takes off g (d d - g h) / (d (d d - 2 g h) + g g). What is wrong after it goes with the fourth
// power of what was wrong before, where a Newton step's goes with the square.
fn closer(a: f64, b: f64, z: f64) -> f64 {
    let c = a - b - b * b;
    let g = ((z - 1.0) * z + c) * z - a * b;
    let d = (3.0 * z - 2.0) * z + c;
    let square = d * d;
    let bent = g * (3.0 * z - 1.0);
    z - g * (square - bent) / (d * (square - 2.0 * bent) + g * g)
}

// Where two such steps lead from a place beyond the root. It takes no `Cubic`, as `nearer_dense` sets a and b no
// bounds.
pub(crate) fn two_steps(a: u64, b: u64, beyond: u64) -> u64
    ensures { result < 2 ^ 32 }
{
    let attraction = of_grid(a);
    let size = of_grid(b);
    let first = closer(attraction, size, of_grid(beyond));
    whole_part(100_000.0 * closer(attraction, size, first))
}

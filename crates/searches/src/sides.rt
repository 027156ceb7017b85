// g in two halves, g(z) = plus(z) - minus(z). They are unsigned, so that each is bounded on its own and
// no difference is taken before its sign is known. A place z is a bare number: each call has one of its own, so
// that a type for `z ≤ farthest` would have to be made at every call.
ghost use Rattle.std.specs.Prelude.{◌≡◌, ◌≤◌};
ghost use Rattle.cubic.specs.Sides.{farthest};
ghost use Rattle.cubic.specs.Sides.{plus as Sides·plus, minus as Sides·minus, rise as Sides·rise};

use cubic::{BEND, Cubic, GRID};

pub(crate) const BELOW_BEND: u64 = BEND - 1;

pub(crate) fn plus(cubic: Cubic, z: u64) -> u64
    requires { z ≤ farthest }
    ensures { result ≡ Sides·plus cubic.a z }
{
    z * (z * z + GRID * cubic.a)
}

pub(crate) fn minus(cubic: Cubic, z: u64) -> u64
    requires { z ≤ farthest }
    ensures { result ≡ Sides·minus cubic.a cubic.b z }
{
    z * (GRID * z + cubic.b * (cubic.b + GRID)) + GRID * cubic.a * cubic.b
}

// By how much g grows from z to z + 1, and 0 where it does not grow.
pub(crate) fn rise(cubic: Cubic, z: u64) -> u64
    requires { z ≤ farthest }
    ensures { result ≡ Sides·rise cubic.a cubic.b z }
{
    let up = 3 * (z * (z + 1)) + 1 + GRID * cubic.a;
    let down = GRID * (2 * z + 1) + cubic.b * (cubic.b + GRID);
    up.saturating_sub(down)
}

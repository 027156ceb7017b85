// g as docs/RULES.md writes it, over signed integers. Within the bounds 64 bits hold every number on the way.
ghost use Rattle.std.specs.Prelude.{◌≡◌, ◌+◌, ◌≤◌};
ghost use Rattle.cubic.specs.Cubic.{N, polynomial, g};
ghost use Rattle.cubic.specs.Promise.{largest_b};
ghost use Rattle.slow_engine.specs.Inside.{Room};

use cubic::{Cubic, GRID};

fn polynomial(n: i64, a: i64, b: i64, z: i64) -> i64
    requires { Room n a b z }
    ensures { result ≡ polynomial n a b z }
{
    z * z * z - n * z * z + (n * a - b * b - n * b) * z - n * a * b
}

pub(crate) fn g(cubic: Cubic, z: u64) -> i64
    requires { z ≤ N + largest_b }
    ensures { result ≡ g cubic.a cubic.b z }
{
    polynomial(GRID as i64, cubic.a as i64, cubic.b as i64, z as i64)
}

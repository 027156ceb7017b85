// The polynomial of a row, in the one order of operations that docs/RULES.md fixes.
ghost use Rattle.std.specs.Prelude.{◌≡◌};
ghost use Rattle.heat.specs.Evaluation.{evaluated};

use crate::table::Coefficients;

// From A5 down: times the temperature, then plus the next coefficient. Each operation rounds once, so
// another order, or a fused one, would give other bits.
pub(crate) fn evaluate(row: Coefficients, kelvin: f64) -> f64
    ensures { result ≡ evaluated row kelvin }
{
    let mut sum = row.a5;
    sum = sum * kelvin + row.a4;
    sum = sum * kelvin + row.a3;
    sum = sum * kelvin + row.a2;
    sum = sum * kelvin + row.a1;
    sum
}

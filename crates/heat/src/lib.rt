// Hydrogen's ideal heat capacity (TM-564, Table 4; docs/RULES.md, under the same name): any
// double at all is a temperature to ask for, and gets the table's double, bit for bit, or the refusal.
#![tactic(auto)]

mod evaluation;
mod replies;
mod table;

ghost use Rattle.heat.specs.Promise.{Answers};
ghost use Rattle.heat.specs.Replies.{comes_back};

use crate::evaluation::evaluate;
use crate::table::coefficients_at;
pub use replies::HeatCapacity;

// A NaN passes no comparison, so each test lets through what is in range, and whatever is left is refused.
pub fn ideal_heat_capacity(kelvin: f64) -> HeatCapacity
    ensures { Answers kelvin (comes_back result) }
{
    if 14.0 <= kelvin {
        if kelvin <= 1000.0 {
            let coefficients = coefficients_at(kelvin);
            return HeatCapacity::KilojoulesPerKilogramKelvin(evaluate(coefficients, kelvin));
        }
    }
    HeatCapacity::OutOfRange
}

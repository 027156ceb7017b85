// The excess viscosity factor of dense gas (TM-564, equation (2.12-2); docs/RULES.md, "Excess viscosity"):
// any number at all is a reduced density to ask for, in thousandths, and gets the factor, in millionths, or
// the refusal.
#![tactic(auto)]

mod quartic;
mod replies;

ghost use Rattle.std.specs.Prelude.{◌≡◌, ◌≤◌};
ghost use Rattle.viscosity.specs.Factor.{squared};
ghost use Rattle.viscosity.specs.Inside.{largest_to_square};
ghost use Rattle.viscosity.specs.Replies.{Replies, figures_of};

use crate::quartic::Density;
pub use replies::{ExcessFigures, OutOfRange};

// The range, in thousandths, ends included. At a density of 0, where there is no excess, the printed
// formula has one: it is of no use there.
const THINNEST: u64 = 100;

const DENSEST: u64 = 3_000;

// 1 in millionths.
const ONE: u64 = 1_000_000;

// The square in millionths, rounded down.
#[tactic(auto, unfolding(crate::specs::Factor::squared))]
fn squared(y: u64) -> u64
    requires { y ≤ largest_to_square }
    ensures { result ≡ squared y }
{
    y * y / ONE
}

// The fourth power of the quartic, less 1, in millionths.
#[tactic(auto, using(crate::proofs::Room::squares_fit, crate::proofs::Factors::fourth_is_above_one))]
pub fn excess_factor(thousandths: u64) -> Result<u64, OutOfRange>
    ensures { Replies thousandths (figures_of result) }
{
    if thousandths < THINNEST {
        return Err(OutOfRange);
    }
    if DENSEST < thousandths {
        return Err(OutOfRange);
    }
    let y = Density { thousandths }.quartic();
    let square = squared(y);
    let fourth_power = squared(square);
    Ok(fourth_power - ONE)
}

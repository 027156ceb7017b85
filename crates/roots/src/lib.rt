// The two roots of a state, or the first refusal that applies to it: all of an answer but its densities.
#![tactic(auto)]

ghost use Rattle.refusals.specs.Numbers.{outcome};
ghost use Rattle.roots.specs.Promise.{Finds};

use engine::Roots;
use fluid::{Fluid, Reached};
use refusals::Refusal;

// The fluid of a state and its two roots.
#[derive(Clone, Copy)]
pub struct Found {
    pub fluid: Fluid,
    pub gas: u64,
    pub dense: u64,
}

// The coefficients of an accepted state are within the cubic's bounds, so it has roots. `start` is any number
// at all: it may shorten the search and changes no answer.
pub fn find(number: u64, millikelvin: u64, pascals: u64, start: u64) -> Result<Found, Refusal>
    ensures { Finds number millikelvin pascals (outcome result) }
{
    let Reached { fluid, reduced } = fluid::reduce(number, millikelvin, pascals)?;
    let Roots { gas, dense } = engine::solve(reduced.a, reduced.b, start).unwrap();
    Ok(Found { fluid, gas, dense })
}

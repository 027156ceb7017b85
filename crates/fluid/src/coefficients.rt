// From a state to the coefficients of the cubic (docs/RULES.md, "From a state to the cubic").
ghost use Rattle.refusals.specs.Checks.{Gives};
ghost use Rattle.refusals.specs.Numbers.{outcome};
ghost use Rattle.fluid.specs.Figures.{number_of};
ghost use Rattle.fluid.specs.Checks.{state_checks};
ghost use Rattle.fluid.specs.Reduced.{Reduces};
ghost use Rattle.fluid.specs.Promise.{ReducesTo};

use crate::choice::{Fluid, coldest_millikelvin, ratios_of};
use refusals::Refusal;
use squares::square_root;

// The ends that all fluids share.
pub const HOTTEST_MILLIKELVIN: u64 = 1_000_000;

const LOWEST_PASCALS: u64 = 10_000;

pub const HIGHEST_PASCALS: u64 = 50_000_000;

// 0.42748 and 0.08664, times the units of t, p, s and of the hundred-thousandths of a and b.
const FACTOR_OF_A: u64 = 42_748_000_000;

const FACTOR_OF_B: u64 = 8_664;

// t in ten-thousandths and p in millionths of the critical constants, s, and A* and B* in
// hundred-thousandths.
#[derive(Clone, Copy)]
pub struct Reduced {
    pub t: u64,
    pub p: u64,
    pub s: u64,
    pub a: u64,
    pub b: u64,
}

// The fluid of a state, and its t, p, s, a and b.
#[derive(Clone, Copy)]
pub struct Reached {
    pub fluid: Fluid,
    pub reduced: Reduced,
}

// The tests are in the order of the refusals' table.
fn reduce_fluid(fluid: Fluid, millikelvin: u64, pascals: u64) -> Result<Reduced, Refusal>
    ensures { Gives (state_checks (number_of fluid) millikelvin pascals) (Reduces fluid millikelvin pascals) (outcome result) }
{
    let coldest = coldest_millikelvin(fluid);
    if millikelvin < coldest {
        return Err(Refusal::TemperatureTooLow);
    }
    if HOTTEST_MILLIKELVIN < millikelvin {
        return Err(Refusal::TemperatureTooHigh);
    }
    if pascals < LOWEST_PASCALS {
        return Err(Refusal::PressureTooLow);
    }
    if HIGHEST_PASCALS < pascals {
        return Err(Refusal::PressureTooHigh);
    }
    let ratios = ratios_of(fluid, millikelvin, pascals);
    let t = ratios.t;
    let p = ratios.p;
    let s = square_root((10_000 * t) as u32);
    let a = FACTOR_OF_A * p / (t * t * s);
    let b = FACTOR_OF_B * p / (100 * t);
    Ok(Reduced { t, p, s, a, b })
}

// What a state comes to, or the first refusal that applies to it. A state is three numbers here and in every call above, as C
// passes them: any numbers at all are let in, so a struct of them would hold no fact.
pub fn reduce(number: u64, millikelvin: u64, pascals: u64) -> Result<Reached, Refusal>
    ensures { ReducesTo number millikelvin pascals (outcome result) }
{
    let fluid = Fluid::try_from(number)?;
    let reduced = reduce_fluid(fluid, millikelvin, pascals)?;
    Ok(Reached { fluid, reduced })
}

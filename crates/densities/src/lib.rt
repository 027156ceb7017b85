// The density of a root (docs/RULES.md, "Densities").
#![tactic(auto)]

ghost use Rattle.std.specs.Prelude.{◌≡◌, ◌*◌, ◌/◌, ◌%◌, ◌≤◌};
ghost use Rattle.fluid.specs.Figures.{highest};
ghost use Rattle.densities.specs.Densities.{gas_constant, density_factor};
ghost use Rattle.densities.specs.Promise.{Weighs};

use fluid::{Fluid, HIGHEST_PASCALS, HOTTEST_MILLIKELVIN, molar_mass};

// N + b for the largest b that the cubic takes.
const LARGEST_ROOT: u64 = 1_100_000;

// 8314.462618 J/(kmol K), in millionths.
const GAS_CONSTANT: u64 = 8_314_462_618;

// A million for the millikelvin's and the gram's thousands, and one for the gas constant's unit. The
// molar mass's hundred-thousandths are the grid's.
const FACTOR_OF_MOLAR_MASS: u64 = 1_000_000_000_000;

// What stands above the bar but for the pressure.
fn factor(fluid: Fluid) -> u64
    ensures { result ≡ density_factor fluid }
{
    molar_mass(fluid) * FACTOR_OF_MOLAR_MASS
}

// The factor over the gas constant, rounded down, and the rest. Each is a function of its own, for then the
// compiler works it out beforehand for each fluid.
fn factor_quotient(fluid: Fluid) -> u64
    ensures { result ≡ density_factor fluid / gas_constant }
{
    factor(fluid) / GAS_CONSTANT
}

fn factor_remainder(fluid: Fluid) -> u64
    ensures { result ≡ density_factor fluid % gas_constant }
{
    factor(fluid) % GAS_CONSTANT
}

// All that stands above the bar over the gas constant, rounded down once. The product would pass 64 bits,
// so it is worked out in parts: the rest of the factor is carried on.
fn over_gas_constant(fluid: Fluid, pascals: u64) -> u64
    requires { pascals ≤ highest }
    ensures { result ≡ density_factor fluid * pascals / gas_constant }
{
    let whole = factor_quotient(fluid);
    let rest = factor_remainder(fluid);
    whole * pascals + rest * pascals / GAS_CONSTANT
}

// The density of a root at a state, in grams per cubic metre; none where 64 bits do not hold its parts, or it
// would divide by 0. To divide by one number and then by another rounds down as to divide by their product
// does. So the gas constant goes first: what is left fits.
#[tactic(auto, using(crate::proofs::Parts::one_rounding), unfolding(crate::specs::Densities::density))]
pub fn density_of(fluid: Fluid, millikelvin: u64, pascals: u64, root: u64) -> Option<u64>
    ensures { Weighs fluid millikelvin pascals root result }
{
    if millikelvin == 0 {
        return None;
    }
    if HOTTEST_MILLIKELVIN < millikelvin {
        return None;
    }
    if HIGHEST_PASCALS < pascals {
        return None;
    }
    if root == 0 {
        return None;
    }
    if LARGEST_ROOT < root {
        return None;
    }
    let grams = over_gas_constant(fluid, pascals) / (root * millikelvin);
    Some(grams)
}

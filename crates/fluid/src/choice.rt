// The choice of a fluid. One whose critical constants are the same at every temperature is a type with
// constants, which is the form that document 01 asks for, and a further case in each choice of this file.
ghost use Rattle.std.specs.Prelude.{◌≡◌, ◌*◌, ◌/◌, ◌≤◌, ◌<◌};
ghost use Rattle.fluid.specs.Figures.{molar_mass, coldest, hottest, highest, Accepted};
ghost use Rattle.fluid.specs.Inside.{ratios_of};
ghost use Rattle.fluid.specs.Promise.{Numbers};
ghost use Rattle.refusals.specs.Numbers.{outcome};

use crate::hydrogen::Hydrogen;
use crate::nitrogen::Nitrogen;
use crate::oxygen::Oxygen;
use quotients::quotient;
use refusals::Refusal;

#[derive(Clone, Copy)]
pub enum Fluid {
    Hydrogen,
    Oxygen,
    Nitrogen,
}

// The fluid that docs/RULES.md, "Fluids", numbers so.
impl TryFrom<u64> for Fluid {
    type Error = Refusal;

    ghost try_from_gives = { λ number r. Numbers number (outcome r) };

    fn try_from(number: u64) -> Result<Self, Refusal> {
        match number {
            0 => Ok(Fluid::Hydrogen),
            1 => Ok(Fluid::Oxygen),
            2 => Ok(Fluid::Nitrogen),
            _ => Err(Refusal::NoSuchFluid),
        }
    }
}

// How many of the units of t and of p a critical constant is.
const PARTS_OF_T: u64 = 10_000;

const PARTS_OF_P: u64 = 1_000_000;

// A temperature and a pressure by the critical constants: t and p.
#[derive(Clone, Copy)]
pub(crate) struct Ratios {
    pub t: u64,
    pub p: u64,
}

pub(crate) fn coldest_millikelvin(fluid: Fluid) -> u64
    ensures { result ≡ coldest fluid }
{
    match fluid {
        Fluid::Hydrogen => Hydrogen::COLDEST_MILLIKELVIN,
        Fluid::Oxygen => Oxygen::COLDEST_MILLIKELVIN,
        Fluid::Nitrogen => Nitrogen::COLDEST_MILLIKELVIN,
    }
}

fn ratio(parts: u64, value: u64, critical: u64) -> u64
    requires { (0 < critical) × (parts * value ≤ 1000000 * highest) }
    ensures { result ≡ parts * value / critical }
{
    parts * value / critical
}

// One choice for both, and the division within it: by a constant the compiler multiplies, where a critical
// constant that was chosen before would have to be divided by. Of hydrogen's two divisions, neither of which
// is by a constant, that of the pressure is guessed.
pub(crate) fn ratios_of(fluid: Fluid, millikelvin: u64, pascals: u64) -> Ratios
    requires { Accepted fluid millikelvin pascals }
    ensures { result ≡ ratios_of fluid millikelvin pascals }
{
    match fluid {
        Fluid::Hydrogen => Ratios {
            t: ratio(
                PARTS_OF_T,
                millikelvin,
                Hydrogen::critical_millikelvin(millikelvin),
            ),
            p: quotient(
                PARTS_OF_P * pascals,
                Hydrogen::critical_pascals(millikelvin) as u32,
            ),
        },
        Fluid::Oxygen => Ratios {
            t: ratio(PARTS_OF_T, millikelvin, Oxygen::CRITICAL_MILLIKELVIN),
            p: ratio(PARTS_OF_P, pascals, Oxygen::CRITICAL_PASCALS),
        },
        Fluid::Nitrogen => Ratios {
            t: ratio(PARTS_OF_T, millikelvin, Nitrogen::CRITICAL_MILLIKELVIN),
            p: ratio(PARTS_OF_P, pascals, Nitrogen::CRITICAL_PASCALS),
        },
    }
}

// In hundred-thousandths of a kilogram a kilomole.
pub fn molar_mass(fluid: Fluid) -> u64
    ensures { result ≡ molar_mass fluid }
{
    match fluid {
        Fluid::Hydrogen => Hydrogen::MOLAR_MASS,
        Fluid::Oxygen => Oxygen::MOLAR_MASS,
        Fluid::Nitrogen => Nitrogen::MOLAR_MASS,
    }
}

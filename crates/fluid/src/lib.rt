// From a state to the cubic (docs/RULES.md): the fluids' figures, the reduced numbers t, p and s, and the
// coefficients a and b.
#![tactic(auto)]

mod choice;
mod coefficients;
pub mod hydrogen;
pub mod nitrogen;
pub mod oxygen;

pub use choice::{Fluid, molar_mass};
pub use coefficients::{HIGHEST_PASCALS, HOTTEST_MILLIKELVIN, Reached, Reduced, reduce};

// The answer to an accepted state: its two roots, their kind, and a density for each; or one of the roots and
// its density.
ghost use Rattle.std.specs.Prelude.{◌≡◌, Ok};
ghost use Rattle.densities.specs.Promise.{Weighable};
ghost use Rattle.densities.specs.Densities.{density};
ghost use Rattle.replies.specs.Figures.{figures_of};
ghost use Rattle.replies.specs.Sides.{SideOf, side_figures_of};
ghost use Rattle.state.specs.Inside.{Weighty, Reported};

use fluid::Fluid;
use replies::{Answer, SideAnswer, for_side};
use roots::Found;

// The roots of an accepted state are within a density's bounds, so there is one.
fn grams(fluid: Fluid, millikelvin: u64, pascals: u64, root: u64) -> u64
    requires { Weighable millikelvin pascals root }
    ensures { result ≡ density fluid millikelvin pascals root }
{
    densities::density_of(fluid, millikelvin, pascals, root).unwrap()
}

pub(crate) fn answer(found: Found, millikelvin: u64, pascals: u64) -> Answer
    requires { Weighty millikelvin pascals found }
    ensures { Reported found millikelvin pascals (figures_of (Ok result)) }
{
    let Found { fluid, gas, dense } = found;
    let gas_density = grams(fluid, millikelvin, pascals, gas);
    if gas == dense {
        return Answer::One {
            root: gas,
            density: gas_density,
        };
    }
    Answer::Split {
        gas,
        dense,
        gas_density,
        dense_density: grams(fluid, millikelvin, pascals, dense),
    }
}

// A side that is neither never comes here. One density is worked out, that of the side's own root.
#[tactic(auto, using(crate::proofs::Answering::reported_for))]
pub(crate) fn answer_side(found: Found, millikelvin: u64, pascals: u64, side: u64) -> SideAnswer
    requires { Weighty millikelvin pascals found }
    ensures { SideOf side (Reported found millikelvin pascals) (side_figures_of (Ok result)) }
{
    let Found { fluid, gas, dense } = found;
    let root = for_side(side, gas, dense);
    let density = grams(fluid, millikelvin, pascals, root);
    SideAnswer { root, density }
}

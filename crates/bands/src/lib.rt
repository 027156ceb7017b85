// What if the attraction is a little off (docs/RULES.md, "The band"): the gas root of a state at two
// scalings of its a, between which lies that of every scaling between them.
#![tactic(auto)]

mod replies;

ghost use Rattle.cubic.specs.Cubic.{GasRoot};
ghost use Rattle.bands.specs.Scalings.{scaled};
ghost use Rattle.bands.specs.Replies.{Replies, figures_of};
ghost use Rattle.bands.specs.Inside.{Stand, Scalable};

use fluid::Reduced;
use refusals::Refusal;
pub use replies::{Band, BandFigures, BandReply};

// The ends of a scaling's range, in thousandths.
const LEAST: u64 = 500;

const MOST: u64 = 1_500;

// Whether both scalings are in range, the lower first. As these are in order, each is tested at one end of the
// range, and the other end follows.
fn stand(lower: u64, upper: u64) -> bool
    ensures { Stand lower upper result }
{
    if lower < LEAST {
        return false;
    }
    if upper < lower {
        return false;
    }
    if MOST < upper {
        return false;
    }
    true
}

// The a of an accepted state is within the cubic's bounds at every scaling.
#[tactic(auto, using(crate::proofs::Scaling::product_at_most, crate::proofs::Scaling::within_bounds), unfolding(crate::specs::Scalings::scaled))]
fn gas_root(a: u64, b: u64, thousandths: u64, start: u64) -> u64
    requires { Scalable a b thousandths }
    ensures { GasRoot (scaled a thousandths) b result }
{
    let roots = engine::solve(a * thousandths / 1_000, b, start).unwrap();
    roots.gas
}

// The scalings are looked at where nothing refuses the state, so that 13 is told last. The second search has
// the first root to try, which it is where the scalings are equal.
#[tactic(auto, using(fluid::proofs::Theorems::coefficients_at_most))]
pub fn band(fluid: u64, millikelvin: u64, pascals: u64, lower: u64, upper: u64) -> BandReply
    ensures { Replies fluid millikelvin pascals lower upper (figures_of result) }
{
    let reached = fluid::reduce(fluid, millikelvin, pascals)?;
    if !stand(lower, upper) {
        return Err(Refusal::ScalingOutOfRange);
    }
    let Reduced { a, b, .. } = reached.reduced;
    let at_lower = gas_root(a, b, lower, 0);
    let at_upper = gas_root(a, b, upper, at_lower);
    Ok(Band { at_lower, at_upper })
}

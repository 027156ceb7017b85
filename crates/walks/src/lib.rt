// The slow way to the gas root of a state (docs/RULES.md, "The walk"), with as many values of g at most as
// the caller allows. No book is asked, and nothing of the quick engine is in reach from here.
#![tactic(auto)]

mod replies;

ghost use Rattle.cubic.specs.Promise.{Within};
ghost use Rattle.walks.specs.Replies.{Replies, figures_of};
ghost use Rattle.walks.specs.Inside.{WalksDown};

use refusals::Refusal;
pub use replies::{WalkFigures, WalkRefusal, WalkReply};
use slow_engine::WalkError;
pub use slow_engine::Walked;

// The coefficients of an accepted state are within the cubic's bounds.
fn walk_down(a: u64, b: u64, limit: u64) -> WalkReply
    requires { Within a b }
    ensures { WalksDown a b limit result }
{
    match slow_engine::walk(a, b, limit) {
        Ok(walked) => Ok(walked),
        Err(WalkError::CutShort { values }) => Err(WalkRefusal {
            refusal: Refusal::WalkCutShort,
            values,
        }),
        Err(WalkError::OutOfBounds) => unreachable!(),
    }
}

// The walk begins where nothing refuses the state, so that 11 is told last.
#[tactic(auto, using(fluid::proofs::Theorems::coefficients_at_most))]
pub fn walk(fluid: u64, millikelvin: u64, pascals: u64, limit: u64) -> WalkReply
    ensures { Replies fluid millikelvin pascals limit (figures_of result) }
{
    let reached = fluid::reduce(fluid, millikelvin, pascals)?;
    walk_down(reached.reduced.a, reached.reduced.b, limit)
}

// One claim, judged by the root that its side has. To look at g beside the root that is claimed would not be
// enough: in a SPLIT state either root would pass for both sides.
ghost use Rattle.claims.specs.Claims.{claim_of};
ghost use Rattle.claims.specs.Inside.{Judges};

use calls::Form;
use refusals::Refusal;
use replies::for_side;

// Nothing where the claim stands. The search may begin at the root that is claimed, which is tested as any
// start is.
pub(crate) fn judge(
    fluid: u64,
    millikelvin: u64,
    pascals: u64,
    side: u64,
    root: u64,
) -> Result<(), Refusal>
    ensures { Judges (claim_of fluid millikelvin pascals side root) result }
{
    let found = calls::find(fluid, millikelvin, pascals, Form::Side(side), root)?;
    let own = for_side(side, found.gas, found.dense);
    if root == own {
        Ok(())
    } else {
        Err(Refusal::RootDiffers)
    }
}

// Roots that other programs gave, checked (docs/RULES.md, "Claims"): a list of claims, each a fluid, a
// temperature, a pressure, a side and a root, any numbers at all, as five lists. The lists are read once,
// claim by claim, up to the first that is refused.
#![tactic(auto)]

mod judging;
mod list;
mod reply;

ghost use Rattle.claims.specs.Lists.{lists_of, count};
ghost use Rattle.claims.specs.Replies.{figures_of, Checked, Replies};

use crate::list::Claims;
pub use reply::{ClaimsFigures, ClaimsRefusal, ClaimsReply};

// What is told of the claims of lists of one length.
#[tactic(auto, using(crate::proofs::Lists::one_more))]
fn check_each(claims: &Claims) -> ClaimsReply
    ensures { Checked claims.now (count claims.now) (figures_of result) }
{
    for claim in 0..claims.count() {
        if let Err(refusal) = claims.judge(claim) {
            return Err(ClaimsRefusal::Claim {
                claim: claim as u64,
                refusal,
            });
        }
    }
    Ok(())
}

// The lengths are compared before any claim is looked at, so that 8 is told before all.
pub fn check(
    fluids: &[u64],
    millikelvin: &[u64],
    pascals: &[u64],
    sides: &[u64],
    roots: &[u64],
) -> ClaimsReply
    ensures { Replies (lists_of fluids.now millikelvin.now pascals.now sides.now roots.now) (figures_of result) }
{
    let claims = Claims::new(fluids, millikelvin, pascals, sides, roots)?;
    check_each(&claims)
}

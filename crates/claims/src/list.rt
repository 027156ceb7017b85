// A list of claims as it comes, five lists of numbers of one length: claim k has number k of each.
ghost use Rattle.std.specs.Prelude.{◌≡◌, ◌<◌};
ghost use Rattle.claims.specs.Lists.{FiveLists, lists_of, count, OneLength, claim_at};
ghost use Rattle.claims.specs.Inside.{Gathers, Judges};

use crate::judging::judge;
use crate::reply::ClaimsRefusal;
use refusals::Refusal;
use std::marker::Model;

#[derive(Drop)]
pub(crate) struct Claims<'a> {
    fluids: &'a [u64],
    millikelvin: &'a [u64],
    pascals: &'a [u64],
    sides: &'a [u64],
    roots: &'a [u64],
}

impl<'a> Model for Claims<'a> {
    ghost Value = { FiveLists };

    ghost view = { λ c. lists_of c.fluids.now c.millikelvin.now c.pascals.now c.sides.now c.roots.now };

    ghost invariant = { λ c. OneLength (lists_of c.fluids.now c.millikelvin.now c.pascals.now c.sides.now c.roots.now) };
}

impl<'a> Claims<'a> {
    // LengthsDiffer where one of the lists has not as many numbers as the first.
    pub(crate) fn new(
        fluids: &'a [u64],
        millikelvin: &'a [u64],
        pascals: &'a [u64],
        sides: &'a [u64],
        roots: &'a [u64],
    ) -> Result<Claims<'a>, ClaimsRefusal>
        ensures { Gathers (lists_of fluids.now millikelvin.now pascals.now sides.now roots.now) result }
    {
        let count = fluids.len();
        if millikelvin.len() != count
            || pascals.len() != count
            || sides.len() != count
            || roots.len() != count
        {
            return Err(ClaimsRefusal::LengthsDiffer);
        }
        Ok(Claims {
            fluids,
            millikelvin,
            pascals,
            sides,
            roots,
        })
    }

    pub(crate) fn count(&self) -> usize
        ensures { result ≡ count self.now }
    {
        self.fluids.len()
    }

    pub(crate) fn judge(&self, claim: usize) -> Result<(), Refusal>
        requires { claim < count self.now }
        ensures { Judges (claim_at self.now claim) result }
    {
        let Claims {
            fluids,
            millikelvin,
            pascals,
            sides,
            roots,
        } = self;
        judge(
            fluids[claim],
            millikelvin[claim],
            pascals[claim],
            sides[claim],
            roots[claim],
        )
    }
}

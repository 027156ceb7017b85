// What is answered, and the number and figure for it.
ghost use Rattle.std.specs.Prelude.{◌≡◌};
ghost use Rattle.claims.specs.Replies.{figures_of};

use refusals::Refusal;

// A refused claim is the first that is, by its number in the list, from 0.
#[derive(Clone, Copy, Debug, PartialEq, Eq)]
pub enum ClaimsRefusal {
    Claim { claim: u64, refusal: Refusal },
    LengthsDiffer,
}

// All claims stand, or this is why not.
pub type ClaimsReply = Result<(), ClaimsRefusal>;

// As C gets them: a number, 0 for an answer, and zeros where refused.
#[derive(Clone, Copy)]
pub struct ClaimsFigures {
    pub number: u64,
    pub claim: u64,
}

impl From<ClaimsReply> for ClaimsFigures {
    ghost from_gives = { λ reply figures. figures ≡ figures_of reply };

    fn from(reply: ClaimsReply) -> ClaimsFigures {
        match reply {
            Ok(()) => ClaimsFigures {
                number: 0,
                claim: 0,
            },
            Err(ClaimsRefusal::Claim { claim, refusal }) => ClaimsFigures {
                number: refusal.number(),
                claim,
            },
            Err(ClaimsRefusal::LengthsDiffer) => ClaimsFigures {
                number: 8,
                claim: 0,
            },
        }
    }
}

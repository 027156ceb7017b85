// What is answered, and the number and figures for it.
ghost use Rattle.std.specs.Prelude.{◌≡◌};
ghost use Rattle.bands.specs.Replies.{figures_of};

use refusals::Refusal;

// The gas root at the lower scaling and at the upper, in hundred-thousandths.
#[derive(Clone, Copy)]
pub struct Band {
    pub at_lower: u64,
    pub at_upper: u64,
}

pub type BandReply = Result<Band, Refusal>;

// As C gets them: a number, 0 for an answer, and zeros where refused.
#[derive(Clone, Copy)]
pub struct BandFigures {
    pub number: u64,
    pub at_lower: u64,
    pub at_upper: u64,
}

impl From<BandReply> for BandFigures {
    ghost from_gives = { λ reply figures. figures ≡ figures_of reply };

    fn from(reply: BandReply) -> BandFigures {
        match reply {
            Ok(Band { at_lower, at_upper }) => BandFigures {
                number: 0,
                at_lower,
                at_upper,
            },
            Err(refusal) => BandFigures {
                number: refusal.number(),
                at_lower: 0,
                at_upper: 0,
            },
        }
    }
}

// The reply to a caller who names a side (docs/RULES.md, "Sides").
ghost use Rattle.std.specs.Prelude.{◌≡◌};
ghost use Rattle.replies.specs.Sides.{for_side, side_figures_of};

use refusals::Refusal;

// The sides' numbers, by which C names a side. A type for it would be made twice in a call: where the side is looked at,
// behind the state's own checks, and where its root is taken.
pub const GAS: u64 = 0;

pub const DENSE: u64 = 1;

// Of two figures that for a side. A side that is neither gas nor dense is refused, and has none.
pub fn for_side(side: u64, gas: u64, dense: u64) -> u64
    ensures { result ≡ for_side side gas dense }
{
    if side == GAS { gas } else { dense }
}

#[derive(Clone, Copy)]
pub struct SideAnswer {
    pub root: u64,
    pub density: u64,
}

pub type SideReply = Result<SideAnswer, Refusal>;

// As C gets them: the number of the reply, and its two figures.
#[derive(Clone, Copy)]
pub struct SideFigures {
    pub number: u64,
    pub root: u64,
    pub density: u64,
}

impl From<SideReply> for SideFigures {
    ghost from_gives = { λ reply figures. figures ≡ side_figures_of reply };

    fn from(reply: SideReply) -> SideFigures {
        match reply {
            Ok(SideAnswer { root, density }) => SideFigures {
                number: 0,
                root,
                density,
            },
            Err(refusal) => SideFigures {
                number: refusal.number(),
                root: 0,
                density: 0,
            },
        }
    }
}

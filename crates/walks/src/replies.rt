// What is answered, and the number and figures for it.
ghost use Rattle.std.specs.Prelude.{◌≡◌};
ghost use Rattle.walks.specs.Replies.{refused, figures_of};

use refusals::Refusal;
use slow_engine::Walked;

// A refused walk brings how many values of g it worked out, which are none but for one that was cut short.
#[derive(Clone, Copy, Debug, PartialEq, Eq)]
pub struct WalkRefusal {
    pub refusal: Refusal,
    pub values: u64,
}

// A state that is refused is not walked in.
impl From<Refusal> for WalkRefusal {
    ghost from_gives = { λ refusal walk. walk ≡ refused refusal };

    fn from(refusal: Refusal) -> WalkRefusal {
        WalkRefusal { refusal, values: 0 }
    }
}

pub type WalkReply = Result<Walked, WalkRefusal>;

// As C gets them: a number, 0 for an answer, the root, and the values of g.
#[derive(Clone, Copy)]
pub struct WalkFigures {
    pub number: u64,
    pub gas_root: u64,
    pub values: u64,
}

impl From<WalkReply> for WalkFigures {
    ghost from_gives = { λ reply figures. figures ≡ figures_of reply };

    fn from(reply: WalkReply) -> WalkFigures {
        match reply {
            Ok(Walked { gas, values }) => WalkFigures {
                number: 0,
                gas_root: gas,
                values,
            },
            Err(WalkRefusal { refusal, values }) => WalkFigures {
                number: refusal.number(),
                gas_root: 0,
                values,
            },
        }
    }
}

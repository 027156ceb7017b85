// The number and figure for what is answered.
ghost use Rattle.std.specs.Prelude.{◌≡◌};
ghost use Rattle.heat_table.specs.Replies.{figures_of};

use refusals::Refusal;

// As C gets them: a number, 0 for an answer, and zeros where refused.
#[derive(Clone, Copy)]
pub struct TableFigures {
    pub number: u64,
    pub heat: u64,
}

impl From<Result<u64, Refusal>> for TableFigures {
    ghost from_gives = { λ reply figures. figures ≡ figures_of reply };

    fn from(reply: Result<u64, Refusal>) -> TableFigures {
        match reply {
            Ok(heat) => TableFigures { number: 0, heat },
            Err(refusal) => TableFigures {
                number: refusal.number(),
                heat: 0,
            },
        }
    }
}

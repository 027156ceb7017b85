// The refusal of a density, and the number and figure for what is answered.
ghost use Rattle.std.specs.Prelude.{◌≡◌};
ghost use Rattle.viscosity.specs.Replies.{figures_of};

#[derive(Clone, Copy, Debug, PartialEq, Eq)]
pub struct OutOfRange;

// As C gets them: a number, 0 for an answer, and zeros where refused.
#[derive(Clone, Copy)]
pub struct ExcessFigures {
    pub number: u64,
    pub factor: u64,
}

impl From<Result<u64, OutOfRange>> for ExcessFigures {
    ghost from_gives = { λ reply figures. figures ≡ figures_of reply };

    fn from(reply: Result<u64, OutOfRange>) -> ExcessFigures {
        match reply {
            Ok(factor) => ExcessFigures { number: 0, factor },
            Err(OutOfRange) => ExcessFigures {
                number: 15,
                factor: 0,
            },
        }
    }
}

// The reply to a state, and what docs/RULES.md, "Replies", says of each of its cases.
#![tactic(auto)]

mod sides;

ghost use Rattle.std.specs.Prelude.{◌≡◌};
ghost use Rattle.replies.specs.Figures.{figures_of, refused_with};

use refusals::Refusal;
pub use sides::{DENSE, GAS, SideAnswer, SideFigures, SideReply, for_side};

// Roots are in hundred-thousandths, densities in grams per cubic metre. The kind is the case: a state
// whose two roots are equal is One, and has one density.
#[derive(Clone, Copy)]
pub enum Answer {
    One {
        root: u64,
        density: u64,
    },
    Split {
        gas: u64,
        dense: u64,
        gas_density: u64,
        dense_density: u64,
    },
}

pub type Reply = Result<Answer, Refusal>;

// As C gets them: the number of a reply, and its five figures.
#[derive(Clone, Copy)]
pub struct Figures {
    pub number: u64,
    pub kind: u64,
    pub gas_root: u64,
    pub dense_root: u64,
    pub gas_density: u64,
    pub dense_density: u64,
}

impl From<Reply> for Figures {
    ghost from_gives = { λ reply figures. figures ≡ figures_of reply };

    fn from(reply: Reply) -> Figures {
        match reply {
            Ok(Answer::One { root, density }) => Figures {
                number: 0,
                kind: 1,
                gas_root: root,
                dense_root: root,
                gas_density: density,
                dense_density: density,
            },
            Ok(
                Answer::Split {
                    gas,
                    dense,
                    gas_density,
                    dense_density,
                },
            ) => Figures {
                number: 0,
                kind: 2,
                gas_root: gas,
                dense_root: dense,
                gas_density,
                dense_density,
            },
            Err(refusal) => refused(refusal.number()),
        }
    }
}

fn refused(number: u64) -> Figures
    ensures { result ≡ refused_with number }
{
    Figures {
        number,
        kind: 0,
        gas_root: 0,
        dense_root: 0,
        gas_density: 0,
        dense_density: 0,
    }
}

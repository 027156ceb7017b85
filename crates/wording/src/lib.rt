// What is printed for a state line (docs/RULES.md, "What the programs print"): its kind, gas root and gas
// density, of a state with two roots also the dense root and the dense density, or NO and the number
// of its refusal; and for a refused sheet: SHEET, the number and the place.
#![tactic(auto)]

ghost use Rattle.texts.specs.Buffer.{Written};
ghost use Rattle.wording.specs.Wording.{LineText, FaultText};

use readings::{Reading, SheetFigures};
use replies::Answer;
use sheets::State;
use texts::{Text, line};

pub fn state_text(state: State) -> Text
    ensures { Written (LineText state) result }
{
    match state::ask(state.fluid, state.millikelvin, state.pascals) {
        Ok(Answer::One { root, density }) => line(b"ONE", &[root, density]),
        Ok(
            Answer::Split {
                gas,
                dense,
                gas_density,
                dense_density,
            },
        ) => line(b"SPLIT", &[gas, gas_density, dense, dense_density]),
        Err(refusal) => line(b"NO", &[refusal.number()]),
    }
}

pub fn fault_text(fault: Reading) -> Text
    ensures { Written (FaultText fault) result }
{
    let figures = SheetFigures::from(fault);
    let place = figures.place as u64;
    line(b"SHEET", &[figures.number, place])
}

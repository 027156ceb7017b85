// What the calls on a state share, whichever form they have: the checks behind the state's own, in the
// rules' order, and what they leave in the book of starting points (docs/RULES.md, "Sides" and "The book").
#![tactic(auto)]

ghost use Rattle.refusals.specs.Checks.{Gives};
ghost use Rattle.refusals.specs.Numbers.{outcome};
ghost use Rattle.calls.specs.Checks.{form_checks};
ghost use Rattle.calls.specs.Promise.{FindsAs, FindsWithBook};

use refusals::Refusal;
use replies::{DENSE, GAS};
use roots::Found;

// What a caller asks for: the whole reply, or one side of it by its number, which may be any at all. It is no Option: at a
// call `Form::Whole` and `Form::Side(side)` say what `None` and `Some(side)` would not.
#[derive(Clone, Copy)]
pub enum Form {
    Whole,
    Side(u64),
}

// The side that is named is one, or none is named.
fn stands(form: Form) -> Result<(), Refusal>
    ensures { Gives (form_checks form) (λ _. Unit {0}) (outcome result) }
{
    match form {
        Form::Whole | Form::Side(GAS) | Form::Side(DENSE) => Ok(()),
        Form::Side(_) => Err(Refusal::NoSuchSide),
    }
}

// The fluid of a state and its two roots, or the first refusal that applies to the call. `start` is any
// number at all: it may shorten the search and changes no answer.
pub fn find(
    number: u64,
    millikelvin: u64,
    pascals: u64,
    form: Form,
    start: u64,
) -> Result<Found, Refusal>
    ensures { FindsAs form number millikelvin pascals (outcome result) }
{
    let found = roots::find(number, millikelvin, pascals, start)?;
    stands(form)?;
    Ok(found)
}

// The same with a book: the search may begin at what the slot says, and leaves the gas root there,
// whichever side is asked for. What the slot says is a place to look first and changes no answer. A slot
// that there is not is told last, after every earlier refusal.
pub fn find_with_book(
    number: u64,
    millikelvin: u64,
    pascals: u64,
    form: Form,
    slot: u64,
    book: &mut [u8],
) -> Result<Found, Refusal>
    ensures { FindsWithBook form number millikelvin pascals slot book.old (outcome result) book.new }
{
    let start = books::start_in(book, slot);
    let found = find(number, millikelvin, pascals, form, start)?;
    books::leave(book, slot, found.gas)?;
    Ok(found)
}

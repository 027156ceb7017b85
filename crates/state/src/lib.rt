// The reply to a state (docs/RULES.md, "Replies"): a fluid's number, a temperature in millikelvin and a
// pressure in pascals, each any 64-bit number at all, with a book of starting points or without one. A
// caller gets the whole reply, or names a side and gets what the whole reply has for it ("Sides"). The walk
// to its gas root and the band of its attraction are handed on, and laid beside it in proofs/.
#![tactic(auto)]

mod answers;

ghost use Rattle.replies.specs.Figures.{figures_of};
ghost use Rattle.replies.specs.Sides.{side_figures_of};
ghost use Rattle.state.specs.Replies.{Replies, RepliesForSide};
ghost use Rattle.state.specs.Book.{Called, CalledForSide};

use crate::answers::{answer, answer_side};
pub use bands::{Band, BandFigures, BandReply, band};
use calls::Form;
pub use replies::{Answer, DENSE, Figures, GAS, Reply, SideAnswer, SideFigures, SideReply};
pub use walks::{WalkFigures, WalkRefusal, WalkReply, Walked, walk};

// Without a book: the search begins with no starting point.
pub fn ask(fluid: u64, millikelvin: u64, pascals: u64) -> Reply
    ensures { Replies fluid millikelvin pascals (figures_of result) }
{
    let found = roots::find(fluid, millikelvin, pascals, 0)?;
    Ok(answer(found, millikelvin, pascals))
}

// With a book: what its slot says changes no reply, and an answered call leaves the gas root there.
pub fn ask_with_book(
    fluid: u64,
    millikelvin: u64,
    pascals: u64,
    slot: u64,
    book: &mut [u8],
) -> Reply
    ensures { Called fluid millikelvin pascals slot book.old (figures_of result) book.new }
{
    let found = calls::find_with_book(fluid, millikelvin, pascals, Form::Whole, slot, book)?;
    Ok(answer(found, millikelvin, pascals))
}

// For one side, without a book.
pub fn ask_side(fluid: u64, millikelvin: u64, pascals: u64, side: u64) -> SideReply
    ensures { RepliesForSide fluid millikelvin pascals side (side_figures_of result) }
{
    let found = calls::find(fluid, millikelvin, pascals, Form::Side(side), 0)?;
    Ok(answer_side(found, millikelvin, pascals, side))
}

// For one side, with a book.
pub fn ask_side_with_book(
    fluid: u64,
    millikelvin: u64,
    pascals: u64,
    side: u64,
    slot: u64,
    book: &mut [u8],
) -> SideReply
    ensures { CalledForSide fluid millikelvin pascals side slot book.old (side_figures_of result) book.new }
{
    let found = calls::find_with_book(fluid, millikelvin, pascals, Form::Side(side), slot, book)?;
    Ok(answer_side(found, millikelvin, pascals, side))
}

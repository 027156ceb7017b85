// What lists come to before a sheet is written from them (docs/RULES.md, "A sheet written"): whether they
// may stand in one, and how long it is. No buffer is lent to it, so nothing is written before a refusal.
#![tactic(auto)]

mod fits;
mod lists;
mod reply;
mod sizes;

ghost use Rattle.measures.specs.Columns.{fluids_lent};
ghost use Rattle.measures.specs.Replies.{figures_of, Told};

use crate::fits::{any_over_ten_digits, any_unfit};
use crate::sizes::section_length;
pub use lists::{Columns, Lists};
use readings::MOST_BYTES;
pub use reply::{WriteFigures, WriteRefusal, WriteReply};

// What is told of the lists where there is room for so many bytes, in the order of the rules.
pub fn measure(lists: Lists, room: usize) -> WriteReply
    ensures { Told (fluids_lent lists.entry) room (figures_of result) }
{
    if any_unfit(lists) {
        return Err(WriteRefusal::ListsUnfit);
    }
    if any_over_ten_digits(lists) {
        return Err(WriteRefusal::TooManyDigits);
    }
    let hydrogen = section_length(lists.hydrogen);
    let oxygen = section_length(lists.oxygen);
    let nitrogen = section_length(lists.nitrogen);
    let length = hydrogen + oxygen + nitrogen;
    if room < length {
        return Err(WriteRefusal::NoRoom);
    }
    if MOST_BYTES < length {
        return Err(WriteRefusal::NoRoom);
    }
    Ok(length)
}

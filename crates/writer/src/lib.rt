// State sheets, written (docs/RULES.md, "A sheet written"): for each fluid a list of temperatures and a
// list of pressures, any numbers at all, become the sheet that the grammar of `sheets` writes from them, in
// a buffer that the caller lends. All is measured before the first byte is written, so a refusal leaves the
// buffer as it was.
#![tactic(auto)]

mod putting;

ghost use Rattle.measures.specs.Columns.{fluids_lent};
ghost use Rattle.measures.specs.Replies.{figures_of};
ghost use Rattle.writer.specs.Replies.{left, Writes};

use crate::putting::put_section;
pub use measures::{Columns, Lists};
use measures::{WriteReply, measure};

// States out of range are written too. The sheet stands at the start of the buffer, and what lies behind it is
// as it was.
pub fn write(lists: Lists, buffer: &mut [u8]) -> WriteReply
    ensures { Writes (fluids_lent lists.entry) buffer.old (left (figures_of result) buffer.new) }
{
    let length = measure(lists, buffer.len())?;
    let oxygen = put_section(buffer, 0, lists.hydrogen);
    let nitrogen = put_section(buffer, oxygen, lists.oxygen);
    put_section(buffer, nitrogen, lists.nitrogen);
    Ok(length)
}

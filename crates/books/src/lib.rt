// The book of starting points (docs/RULES.md, "The book"): 192 bytes that the page lends, three to a
// slot, the lowest first. What a slot says is a place to look first; an answered call leaves its gas root
// there.
#![tactic(auto)]

ghost use Rattle.std.specs.Prelude.{◌≡◌, ◌<◌, length};
ghost use Rattle.books.specs.Layouts.{HasSlot};
ghost use Rattle.books.specs.Bytes.{in_bytes};
ghost use Rattle.books.specs.Promise.{Starts, Leaves};

use refusals::Refusal;

// A book has 64 slots.
pub const BOOK_BYTES: usize = 192;

const LAST_SLOT: u64 = 63;

const SLOT_BYTES: usize = 3;

// What the three bytes of a slot that there is say.
fn said(book: &[u8], slot: u64) -> u64
    requires { HasSlot in_bytes slot (length book.now) }
    ensures { result ≡ in_bytes.says book.now slot }
{
    let first = SLOT_BYTES * slot as usize;
    let low = u64::from(book[first]);
    let middle = u64::from(book[first + 1]);
    let high = u64::from(book[first + 2]);
    low + 256 * middle + 65_536 * high
}

// The root in the three bytes of a slot that there is.
fn put(book: &mut [u8], slot: u64, root: u64)
    requires { HasSlot in_bytes slot (length book.old) }
    ensures { book.new ≡ in_bytes.put book.old slot root }
{
    let first = SLOT_BYTES * slot as usize;
    book[first] = (root % 256) as u8;
    book[first + 1] = (root / 256 % 256) as u8;
    book[first + 2] = (root / 65_536 % 256) as u8;
}

// What the slot says, and 0 where there is no such slot.
pub fn start_in(book: &[u8], slot: u64) -> u64
    ensures { Starts book.now slot result }
{
    if book.len() == BOOK_BYTES && slot <= LAST_SLOT {
        said(book, slot)
    } else {
        0
    }
}

// The slot says the root, or there is no such slot and nothing is written.
pub fn leave(book: &mut [u8], slot: u64, root: u64) -> Result<(), Refusal>
    ensures { Leaves book.old slot root book.new result }
{
    if book.len() != BOOK_BYTES {
        return Err(Refusal::NoSuchSlot);
    }
    if LAST_SLOT < slot {
        return Err(Refusal::NoSuchSlot);
    }
    put(book, slot, root);
    Ok(())
}

// Whether lists may stand in a sheet: how many numbers they have, and how many digits a number.
ghost use Rattle.measures.specs.Columns.{columns_lent, fluids_lent};
ghost use Rattle.measures.specs.Checks.{Some, Unfit, TooManyDigits, HasTooManyDigits};
ghost use Rattle.measures.specs.Inside.{Decides};

use crate::lists::{Columns, Lists};
use lines::MOST_STATES;

// The largest number of ten digits.
const MOST_NUMBER: u64 = 9_999_999_999;

// Whether a fluid's two lists are too long or of unequal lengths.
fn unfit(columns: Columns) -> bool
    ensures { Decides (Unfit (columns_lent columns.entry)) result }
{
    MOST_STATES < columns.millikelvin.len() as u64
        || columns.millikelvin.len() != columns.pascals.len()
}

// Whether those of one fluid are.
pub(crate) fn any_unfit(lists: Lists) -> bool
    ensures { Decides (Some Unfit (fluids_lent lists.entry)) result }
{
    unfit(lists.hydrogen) || unfit(lists.oxygen) || unfit(lists.nitrogen)
}

// Whether a number of a list has more than ten digits.
fn over_ten_digits(numbers: &[u64]) -> bool
    ensures { Decides (Some TooManyDigits numbers.now) result }
{
    numbers.iter().any(|&number| MOST_NUMBER < number)
}

// Whether one of either list of a fluid has.
fn has_over_ten_digits(columns: Columns) -> bool
    ensures { Decides (HasTooManyDigits (columns_lent columns.entry)) result }
{
    over_ten_digits(columns.millikelvin) || over_ten_digits(columns.pascals)
}

// Whether one of any list has.
pub(crate) fn any_over_ten_digits(lists: Lists) -> bool
    ensures { Decides (Some HasTooManyDigits (fluids_lent lists.entry)) result }
{
    has_over_ten_digits(lists.hydrogen)
        || has_over_ten_digits(lists.oxygen)
        || has_over_ten_digits(lists.nitrogen)
}

// Hydrogen's ideal heat capacity for a machine that has no doubles (docs/RULES.md, "The heat table"): any
// number at all is a temperature to ask for, in millikelvin, and gets a whole number of J/(kg K) or a
// refusal.
#![tactic(auto)]

mod entries;
mod replies;

ghost use Rattle.std.specs.Prelude.{◌≤◌};
ghost use Rattle.heat_table.specs.Line.{OnLine};
ghost use Rattle.heat_table.specs.Replies.{Replies, figures_of};

use crate::entries::{entries, entry};
use refusals::Refusal;
pub use replies::TableFigures;

// Where the table begins and ends, as for hydrogen.
const COLDEST_MILLIKELVIN: u64 = 14_000;

const HOTTEST_MILLIKELVIN: u64 = 1_000_000;

// The straight line from the entry below to the entry above, so many millikelvins past the first, rounded
// down.
#[tactic(auto, using(crate::proofs::Lines::shares, crate::proofs::Lines::rounded))]
fn on_line(below: u16, above: u16, past: u64) -> u64
    requires { past ≤ 1000 }
    ensures { OnLine below above past result }
{
    (below as u64 * (1_000 - past) + above as u64 * past) / 1_000
}

// The line between the entries of the whole kelvins beside the temperature. The last entry, which has no
// neighbour above it, is answered as it is. In J/(kg K).
#[tactic(auto, using(crate::proofs::Telling::tells_on_line, crate::proofs::Telling::tells_last))]
pub fn ideal_heat_capacity(millikelvin: u64) -> Result<u64, Refusal>
    ensures { Replies millikelvin (figures_of result) }
{
    if millikelvin < COLDEST_MILLIKELVIN {
        return Err(Refusal::TemperatureTooLow);
    }
    if HOTTEST_MILLIKELVIN < millikelvin {
        return Err(Refusal::TemperatureTooHigh);
    }
    let table = entries();
    let kelvin = millikelvin / 1_000;
    let below = entry(&table, kelvin);
    if millikelvin == HOTTEST_MILLIKELVIN {
        return Ok(below as u64);
    }
    let above = entry(&table, kelvin + 1);
    Ok(on_line(below, above, millikelvin % 1_000))
}

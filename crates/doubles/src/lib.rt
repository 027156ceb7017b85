// Whole numbers out of doubles, for guesses that are tested before they are used: nothing is promised of one
// but that 32 bits hold it, and no law about floating point is needed.
#![tactic(auto)]

ghost use Rattle.std.specs.Prelude.{◌^◌, ◌<◌};

// A double from 2^52 on has no room for a fraction, so a sum with this has the whole part of what it is added to
// in its last bits: 2^52, less a half since a sum is rounded to the nearest.
const NO_FRACTION: f64 = 4503599627370495.5;

// 2^53. No NaN is below it.
const TOO_LARGE: f64 = 9007199254740992.0;

// 2^32: what is left of a division by it are the last 32 bits.
const PAST_32_BITS: u64 = 4_294_967_296;

// The whole part of a number from 0 to below 2^32, but for a few that are whole themselves; of any other double
// some number or other.
pub fn whole_part(x: f64) -> u64
    ensures { result < 2 ^ 32 }
{
    let shifted = x + NO_FRACTION;
    if shifted < TOO_LARGE {
        return shifted.to_bits() % PAST_32_BITS;
    }
    0
}

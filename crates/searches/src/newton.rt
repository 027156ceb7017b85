// The two searches. Each goes from outside towards the bend by Newton steps with exact differences:
// a straight line bounds g as far as the bend, so nothing on the way is skipped, and no sign change
// is trusted that is not the first from outside.
ghost use Rattle.std.specs.Prelude.{◌≡◌};
ghost use Rattle.cubic.specs.Sides.{FallsFrom, Falling, FallsTo, ClimbsTo};

use crate::sides::{BELOW_BEND, minus, plus, rise};
use cubic::{BEND, Cubic, GRID};
use guesses::nearer;

// A place from which g is positive for good, with what a step down from it asks: by how much g rises to
// it, and what g has above 1 there.
#[derive(Clone, Copy)]
struct Place {
    high: u64,
    slope: u64,
    room: u64,
}

fn place_at(cubic: Cubic, high: u64) -> Place
    requires { FallsFrom cubic.a cubic.b high }
    ensures high_value { result.high ≡ high }
    ensures falling { Falling cubic.a cubic.b result.high result.room result.slope }
{
    let slope = rise(cubic, high - 1);
    let room = plus(cubic, high) - minus(cubic, high) - 1;
    Place { high, slope, room }
}

// Just above the guess where g can be seen to be positive from there on, else above N + b. From the bend
// on a step that rises rises on, so a rise to a positive value shows it.
fn first_place(cubic: Cubic) -> Place
    ensures { Falling cubic.a cubic.b result.high result.room result.slope }
{
    let top = GRID + cubic.b + 1;
    let guess = nearer(cubic.a, cubic.b);
    let high = guess + 1;
    let slope = rise(cubic, guess);
    let above = plus(cubic, high);
    let below = minus(cubic, high);
    if slope == 0 {
        place_at(cubic, top)
    } else if above <= below {
        place_at(cubic, top)
    } else {
        let room = above - below - 1;
        Place { high, slope, room }
    }
}

// The crossing at the bend or above, if there is one, and the place below the bend if there is none.
// Down to the bend no step is more than the one below `high`, so g stays positive for as many places as
// that step goes into the room.
pub(crate) fn fall(cubic: Cubic) -> u64
    ensures { FallsTo cubic.a cubic.b result }
{
    let mut place = first_place(cubic);
    loop {
        let Place { high, slope, room } = place;
        if slope == 0 {
            return BELOW_BEND;
        }
        if room < slope {
            return high - 1;
        }
        let jump = room / slope;
        if high - BEND <= jump {
            return BELOW_BEND;
        }
        place = place_at(cubic, high - jump);
    }
}

// The crossing below the bend, if there is one, and the bend if there is none.
// g is not positive at `low` and below. Up to the bend no step is more than the one above `low`, so g
// stays so for as many places as that step goes into what g has below 0 there.
pub(crate) fn climb(cubic: Cubic) -> u64
    ensures { ClimbsTo cubic.a cubic.b result }
{
    if BEND <= cubic.b {
        return BEND;
    }
    let mut low = cubic.b;
    loop {
        let slope = rise(cubic, low);
        if slope == 0 {
            return BEND;
        }
        let room = minus(cubic, low) - plus(cubic, low);
        if room < slope {
            return low;
        }
        let jump = room / slope;
        if BEND - low <= jump {
            return BEND;
        }
        low += jump;
    }
}

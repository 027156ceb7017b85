// The Redlich-Kwong cubic of docs/RULES.md: its definitions (specs/) and the laws about them (proofs/). Of
// code it has what every engine shares, the constants and the cubic itself: the engines find what is proved
// here proved.
#![tactic(auto)]

ghost use Rattle.cubic.specs.Promise.{Within};

// The grid N of the rules, and the place a third up at which g bends.
pub const GRID: u64 = 100_000;

pub const BEND: u64 = 33_333;

// Bounds within which every value worked out stays below 2^64 (specs/Promise.antt says what they hold).
pub const LARGEST_A: u64 = 20_000_000;

pub const LARGEST_B: u64 = 1_000_000;

// A cubic by its coefficients, which lie within the bounds.
#[derive(Clone, Copy)]
pub struct Cubic {
    pub a: u64,
    pub b: u64,
    pub ghost within: { Within a b },
}

impl Cubic {
    ghost use Rattle.cubic.specs.Bounded.{Bounded};

    pub fn new(a: u64, b: u64) -> Option<Cubic>
        ensures { Bounded a b result }
    {
        if a <= LARGEST_A && b <= LARGEST_B {
            Some(Cubic { a, b })
        } else {
            None
        }
    }
}

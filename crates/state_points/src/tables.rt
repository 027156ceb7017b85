// The states that are asked, as pairs of a temperature and a pressure and one by one, and what the book says
// before the first of them.
use crate::{Question, SLOTS};

const LARGEST: u64 = u64::MAX;

// What a careless page might lend, each a number of three bytes: nothing, roots of worked states with
// their neighbours and their coefficients, the third of the grid where the cubic bends, the ends of the
// grid, and numbers that are no state's root.
pub(crate) const MISLEADING: [u64; 64] = [
    0, 1, 33_332, 33_333, 99_286, 100_001, 16_777_215, 92_696, 1699, 1700, 92_697, 100_474,
    100_475, 33_334, 100_000, 99_999, 66_666, 66_667, 2, 3, 885, 886, 1106, 1107, 101_106, 101_107,
    100_885, 100_886, 637, 638, 165, 7984, 1616, 8664, 8665, 42_748, 50_000, 25_000, 75_000,
    12_500, 87_500, 1_054_341, 1_054_342, 954_341, 10_969_036, 65_535, 65_536, 256, 8_388_607,
    8_388_608, 16_777_214, 16_677_215, 1_000_000, 1_000_001, 200_000, 200_002, 300_000, 400_000,
    10, 100, 1000, 10_000, 31, 15_000_000,
];

// Millikelvin: the ends of the ranges with their neighbours, 0 and the largest number, hydrogen from
// 14 K, oxygen from 56 K and nitrogen from 64 K up to the critical temperatures, and these with their
// neighbours. Hydrogen's depends on the temperature, and is the temperature itself near 32,786.
pub(crate) const TEMPERATURES: [u64; 64] = [
    0, 13_999, 14_000, 14_001, 15_000, 16_000, 17_000, 18_000, 19_000, 20_000, 20_280, 21_000,
    22_000, 23_000, 24_000, 25_000, 26_000, 27_000, 28_000, 29_000, 30_000, 31_000, 32_000, 32_785,
    32_786, 32_787, 33_000, 55_999, 56_000, 56_001, 60_000, 63_999, 64_000, 64_001, 65_000, 70_000,
    75_000, 80_000, 85_000, 90_188, 95_000, 100_000, 105_000, 110_000, 115_000, 120_000, 125_000,
    126_191, 126_192, 126_193, 130_000, 135_000, 140_000, 145_000, 150_000, 154_575, 154_576,
    154_577, 200_000, 300_000, 999_999, 1_000_000, 1_000_001, LARGEST,
];

// Pascals: likewise, and close together where all fluids have SPLIT states.
pub(crate) const PRESSURES: [u64; 45] = [
    0, 9999, 10_000, 10_001, 15_000, 20_000, 30_000, 40_000, 60_000, 80_000, 101_325, 120_000,
    150_000, 200_000, 250_000, 300_000, 400_000, 500_000, 600_000, 700_000, 800_000, 900_000,
    1_000_000, 1_100_000, 1_226_499, 1_226_500, 1_226_501, 1_500_000, 2_000_000, 2_500_000,
    3_000_000, 3_395_799, 3_395_800, 3_395_801, 3_500_000, 4_200_000, 5_041_999, 5_042_000,
    5_042_001, 10_000_000, 30_000_000, 49_999_999, 50_000_000, 50_000_001, LARGEST,
];

pub(crate) const SINGLE: [Question; 14] = [
    // Each side of a range where every later refusal applies too.
    (1, 0, 0, SLOTS),
    (1, LARGEST, LARGEST, SLOTS),
    (1, 300_000, 0, SLOTS),
    (1, 300_000, LARGEST, SLOTS),
    // Each other refusal likewise.
    (3, 0, 0, SLOTS),
    (LARGEST, LARGEST, LARGEST, LARGEST),
    (1, 300_000, 1_000_000, SLOTS),
    (0, 300_000, 1_000_000, LARGEST),
    // Densities that reach their last gram only by what the molar mass leaves over the gas constant: for each
    // fluid a state with one root and one with two.
    (0, 24_073, 15_549_695, 0),
    (0, 25_329, 397_317, 1),
    (1, 121_784, 3_611_541, 2),
    (1, 107_132, 37_618, 3),
    (2, 84_223, 3_373_821, 4),
    (2, 109_820, 314_834, 5),
];

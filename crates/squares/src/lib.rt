// The whole square root of the rules' s, of any number n of 32 bits, as one works it out on paper: n's
// digits are taken in pairs from the front, and each pair gives the root one digit more. After a root r
// comes the largest digit d for which (20 r + d) d is at most what is left, for
// (10 r + d) (10 r + d) = 100 r r + (20 r + d) d. With t 7763, n is 10000 x 7763, and its root s is 8810:
//
//     pair      left    digit    (20 r + d) d          rest      root
//       0          0      0          0 x 0 =    0         0         0
//      77         77      8          8 x 8 =   64        13         8
//      63       1363      8        168 x 8 = 1344        19        88
//      00       1900      1       1761 x 1 = 1761       139       881
//      00      13900      0      17620 x 0 =    0     13900      8810
//
// On paper one carries the rest and brings the next pair down beside it. Here what is left is worked out
// from the root: it is what the pairs up to the next one have more than the square of 10 r. That is the
// same number, 100 x 13 + 63 = 7763 - 80 x 80 = 1363, and a processor waits less for it: there are fewer
// steps from one digit to the next, and 7763, which is n / 10000, waits for no digit. docs/SQUARE-ROOT.md
// goes through it step by step.
#![tactic(auto)]

ghost use Rattle.std.specs.Prelude.{◌≡◌, ◌+◌, ◌*◌, ◌/◌, ◌^◌, ◌≤◌, ◌<◌};
ghost use Rattle.squares.specs.SquareRoot.{SquareRoot};
ghost use Rattle.squares.specs.Inside.{AfterPairs, ForOneDigit, NextDigit, all_pairs, largest_root, product};

// A number of 32 bits has ten digits at most.
const PAIRS: usize = 5;

const AFTER_FIRST: usize = PAIRS - 1;

// What one is worth in a pair, by how many pairs follow it.
const UNITS: [u32; PAIRS] = [1, 100, 10_000, 1_000_000, 100_000_000];

// By how much a digit behind the root makes the square larger.
fn product(root: u64, digit: u64) -> u64
    requires { (root ≤ largest_root) × (digit ≤ 9) }
    ensures { result ≡ product root digit }
{
    (20 * root + digit) * digit
}

// The largest digit whose product is at most what is left. The products rise with the digit, so it is 9
// less the number of those that are too large. All nine are looked at, whichever it is, since a branch
// that a processor cannot foretell costs more than the few products that could be spared.
fn next_digit(root: u64, left: u64) -> u64
    requires { ForOneDigit root left }
    ensures { NextDigit root left result }
{
    let mut digit = 9;
    for tried in 1..10 {
        if left < product(root, tried) {
            digit -= 1;
        }
    }
    digit
}

// The number that n's pairs make where so many, the last ones, are left out.
fn front(n: u32, pairs_left: usize) -> u64
    requires { pairs_left < all_pairs }
    ensures { result ≡ n / 100 ^ pairs_left }
{
    (n / UNITS[pairs_left]) as u64
}

// The root of the first pair, by the squares that one knows by heart. One of a number of 32 bits is at most 42.
fn first_root(pair: u64) -> u64
    requires { pair < 7 * 7 }
    ensures { SquareRoot pair result }
{
    if pair < 1 {
        return 0;
    }
    if pair < 4 {
        return 1;
    }
    if pair < 9 {
        return 2;
    }
    if pair < 16 {
        return 3;
    }
    if pair < 25 {
        return 4;
    }
    if pair < 36 {
        return 5;
    }
    6
}

// The root of the pairs up to the next one, from that of the pairs taken so far. A type for n, a root and the pairs
// left would be no plainer: only the next function takes the three, and each call hands it a new root.
fn take_pair(n: u32, root: u64, pairs_left: usize) -> u64
    requires { AfterPairs n (pairs_left + 1) root }
    ensures { AfterPairs n pairs_left result }
{
    let tens = 10 * root;
    let left = front(n, pairs_left) - tens * tens;
    tens + next_digit(root, left)
}

// The root of all of n, from that of the pairs taken so far. The recursion on the number of pairs left is a form
// that document 01 names (docs/DECISIONS.md); the call of itself is the last thing done, so that the compiler
// makes a loop of it.
fn take_pairs(n: u32, root: u64, pairs_left: usize) -> u64
    requires { AfterPairs n pairs_left root }
    ensures { SquareRoot n result }
{
    if pairs_left == 0 {
        return root;
    }
    let one_less = pairs_left - 1;
    let longer_root = take_pair(n, root, one_less);
    take_pairs(n, longer_root, one_less)
}

// The largest whole number whose square is at most n.
pub fn square_root(n: u32) -> u64
    ensures { SquareRoot n result }
{
    let first = front(n, AFTER_FIRST);
    take_pairs(n, first_root(first), AFTER_FIRST)
}

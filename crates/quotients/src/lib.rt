// A quotient rounded down, that is guessed and then tested: a processor divides doubles more quickly than
// 64-bit whole numbers, or at the same time as these. What doubles come to is nowhere relied on: a guess may
// change how long an answer takes, never what it is.
#![tactic(auto)]

ghost use Rattle.quotients.specs.Quotient.{Quotient};

use doubles::whole_part;
use std::num::nearest_u64_to_f64;

// The largest whole number whose product with the divisor is at most n, and 0 where the divisor is 0. Where
// the guess's product is above n, or the next number's is not, n is divided in whole numbers. A guess and a
// divisor of 32 bits have a product that 64 bits hold.
pub fn quotient(n: u64, divisor: u32) -> u64
    ensures { Quotient n divisor result }
{
    if divisor == 0 {
        return 0;
    }
    let guessed = whole_part(nearest_u64_to_f64(n) / (divisor as f64));
    let product = guessed * (divisor as u64);
    if product <= n {
        if n < product + (divisor as u64) {
            return guessed;
        }
    }
    n / (divisor as u64)
}

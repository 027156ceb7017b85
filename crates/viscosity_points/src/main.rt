// Prints what `viscosity::excess_factor` answers to every density from 0 to 4000 thousandths, and to large
// numbers. A line is the density, the number of the reply and the factor; the last line is how many
// densities there were. The gate holds the output to what a second implementation answers in exact
// fractions (host/checks/stored makes that again).
#![tactic(auto)]

ghost use Rattle.std.specs.Prelude.{◌≡◌};

use viscosity::ExcessFigures;

const SMALL: u64 = 4_001;

// No density of the range, though most of them are one to whoever keeps 16 or 32 bits, or 63, or takes the
// highest bit for a sign.
const LARGE: [u64; 16] = [
    65_536,
    65_636,
    66_536,
    68_536,
    4_294_967_295,
    4_294_967_296,
    4_294_967_396,
    4_294_968_296,
    4_294_970_296,
    9_223_372_036_854_775_807,
    9_223_372_036_854_775_808,
    9_223_372_036_854_775_908,
    9_223_372_036_854_778_808,
    18_446_744_073_709_548_616,
    18_446_744_073_709_551_516,
    18_446_744_073_709_551_615,
];

fn print_density(rt: &impl Print, thousandths: u64) {
    let figures = ExcessFigures::from(viscosity::excess_factor(thousandths));
    let _ = println!(rt; "{thousandths} {} {}", figures.number, figures.factor);
}

// Answers how many densities it asked for, as `print_large` does.
fn print_small(rt: &impl Print) -> u64
    ensures { result ≡ 4001 }
{
    let mut asked = 0;
    for thousandths in 0..SMALL {
        print_density(rt, thousandths);
        asked += 1;
    }
    asked
}

fn print_large(rt: &impl Print) -> u64
    ensures { result ≡ 16 }
{
    let mut asked = 0;
    for thousandths in LARGE {
        print_density(rt, thousandths);
        asked += 1;
    }
    asked
}

fn print_densities(rt: &impl Print) {
    let small = print_small(rt);
    let large = print_large(rt);
    let _ = println!(rt; "{} densities", small + large);
}

fn main(rt: HostRuntime) {
    // Where a write fails, its text is lost and the next is tried. That changes no status: the gate
    // compares the lines.
    print_densities(&rt);
}

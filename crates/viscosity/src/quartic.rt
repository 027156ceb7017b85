// The quartic of (2.12-2) in millionths. It is worked out exactly, times 10^12, the fourth power of a
// thousand: a coefficient in millionths has three noughts more for each power of x, in thousandths, that
// its term lacks. The one term with a minus is taken away when all others stand, so that no number is
// negative.
ghost use Rattle.std.specs.Prelude.{◌≡◌, ◌≤◌};
ghost use Rattle.viscosity.specs.Factor.{densest};
ghost use Rattle.viscosity.specs.Inside.{added, taken, quotient};

// A reduced density that is not above the densest, in thousandths: 64 bits hold every term of it.
#[derive(Clone, Copy)]
pub(crate) struct Density {
    pub thousandths: u64,
    pub ghost to_densest: { thousandths ≤ densest },
}

impl Density {
    // 0.093324 x^4 + 0.58533 x^2 + 0.23364 x + 1.0230
    #[tactic(auto, using(crate::proofs::Room::powers), unfolding(crate::specs::Inside::added))]
    fn added(self) -> u64
        ensures { result ≡ added self.thousandths }
    {
        let square = self.thousandths * self.thousandths;
        93_324 * square * square
            + 585_330_000_000 * square
            + 233_640_000_000_000 * self.thousandths
            + 1_023_000_000_000_000_000
    }

    // 0.40758 x^3
    #[tactic(auto, using(crate::proofs::Room::powers, crate::proofs::Halves::taken_fits), unfolding(crate::specs::Inside::taken))]
    fn taken(self) -> u64
        ensures { (result ≡ taken self.thousandths) × (result ≤ added self.thousandths) }
    {
        407_580_000 * self.thousandths * self.thousandths * self.thousandths
    }

    // The quartic in millionths, rounded down.
    pub(crate) fn quartic(self) -> u64
        ensures { result ≡ quotient self.thousandths }
    {
        (self.added() - self.taken()) / 1_000_000_000_000
    }
}

// Parahydrogen: its constants, and the two of them that depend on the temperature (docs/RULES.md, "Fluids";
// TM-564, Table 1 and equations (2.1-15) and (2.1-16)).
ghost use Rattle.std.specs.Prelude.{◌≡◌, ◌≤◌};
ghost use Rattle.fluid.specs.Figures.{critical_millikelvin, critical_pascals, hottest};
ghost use Rattle.fluid.specs.Figures.{lowered as Figures·lowered};
ghost use Rattle.fluid.specs.Inside.{LoweredFits};

use crate::choice::Fluid;

#[derive(Clone, Copy)]
pub struct Hydrogen {}

impl Hydrogen {
    // 2.01594, in hundred-thousandths.
    pub const MOLAR_MASS: u64 = 201_594;

    pub const COLDEST_MILLIKELVIN: u64 = 14_000;

    // What the critical constants near in hot gas: 43.6 K and 20.2 atm.
    pub const CRITICAL_MILLIKELVIN: u64 = 43_600;

    pub const CRITICAL_PASCALS: u64 = 2_046_765;

    // What lowers them in cold gas: 21.8 K and 44.2 K, in the unit of molar mass times millikelvin.
    pub const MILLIKELVIN_SHIFT: u64 = 2_180_000_000;

    pub const PASCALS_SHIFT: u64 = 4_420_000_000;

    // What comes to `hot` in hot gas, at a temperature.
    #[tactic(auto, unfolding(crate::specs::Figures::lowered))]
    fn lowered(hot: u64, shift: u64, millikelvin: u64) -> u64
        requires { LoweredFits hot shift millikelvin }
        ensures { result ≡ Figures·lowered hot shift millikelvin }
    {
        let m = Self::MOLAR_MASS * millikelvin;
        hot * m / (m + shift)
    }

    // (2.1-15).
    pub(crate) fn critical_millikelvin(millikelvin: u64) -> u64
        requires { millikelvin ≤ hottest }
        ensures { result ≡ critical_millikelvin Fluid.Hydrogen millikelvin }
    {
        Self::lowered(
            Self::CRITICAL_MILLIKELVIN,
            Self::MILLIKELVIN_SHIFT,
            millikelvin,
        )
    }

    // (2.1-16).
    pub(crate) fn critical_pascals(millikelvin: u64) -> u64
        requires { millikelvin ≤ hottest }
        ensures { result ≡ critical_pascals Fluid.Hydrogen millikelvin }
    {
        Self::lowered(Self::CRITICAL_PASCALS, Self::PASCALS_SHIFT, millikelvin)
    }
}

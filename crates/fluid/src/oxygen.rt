// Oxygen: its constants (docs/RULES.md, "Fluids"; TM-564, Table 1).

#[derive(Clone, Copy)]
pub struct Oxygen {}

impl Oxygen {
    // 31.9988, in hundred-thousandths.
    pub const MOLAR_MASS: u64 = 3_199_880;

    pub const COLDEST_MILLIKELVIN: u64 = 56_000;

    pub const CRITICAL_MILLIKELVIN: u64 = 154_576;

    pub const CRITICAL_PASCALS: u64 = 5_042_000;
}

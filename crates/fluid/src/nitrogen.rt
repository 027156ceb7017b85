// Nitrogen: its constants (docs/RULES.md, "Fluids"; JAXA-RM-13-019, Table 2).

#[derive(Clone, Copy)]
pub struct Nitrogen {}

impl Nitrogen {
    // 28.0134, in hundred-thousandths.
    pub const MOLAR_MASS: u64 = 2_801_340;

    pub const COLDEST_MILLIKELVIN: u64 = 64_000;

    pub const CRITICAL_MILLIKELVIN: u64 = 126_192;

    pub const CRITICAL_PASCALS: u64 = 3_395_800;
}

// What a sheet is to be written from: for each fluid a list of temperatures and a list of pressures.

#[derive(Clone, Copy)]
pub struct Columns<'a> {
    pub millikelvin: &'a [u64],
    pub pascals: &'a [u64],
}

#[derive(Clone, Copy)]
pub struct Lists<'a> {
    pub hydrogen: Columns<'a>,
    pub oxygen: Columns<'a>,
    pub nitrogen: Columns<'a>,
}

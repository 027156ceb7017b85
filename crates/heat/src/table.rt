// Table 4, and which of its rows a temperature takes.
ghost use Rattle.std.specs.Prelude.{◌≡◌, T};
ghost use Rattle.std.specs.Float.Ieee.Positive.{positive};
ghost use Rattle.heat.specs.Inside.{RowFor};
ghost use Rattle.heat.specs.Table.{table};

// The five coefficients of a range, held together. The answer is A1 + A2 T + A3 T^2 + A4 T^3 + A5 T^4.
#[derive(Clone, Copy)]
pub(crate) struct Coefficients {
    pub a1: f64,
    pub a2: f64,
    pub a3: f64,
    pub a4: f64,
    pub a5: f64,
}

// The decimals as they are printed, in kJ/(kg K): up to 40 K, up to 150 K, up to 500 K, and above.
const TABLE_4: [Coefficients; 4] = [
    Coefficients {
        a1: 10.3121,
        a2: 0.0,
        a3: 0.0,
        a4: 0.0,
        a5: 0.0,
    },
    Coefficients {
        a1: 14.759936,
        a2: -0.21977388,
        a3: 0.32100769e-2,
        a4: -0.120615002e-4,
        a5: 0.57121808e-8,
    },
    Coefficients {
        a1: 6.6557899,
        a2: 0.15621077,
        a3: -0.86913643e-3,
        a4: 0.18972274e-5,
        a5: -0.14418461e-8,
    },
    Coefficients {
        a1: 14.4714861,
        a2: -0.7176787e-3,
        a3: 0.18638538e-5,
        a4: -0.5306547e-9,
        a5: 0.46649305e-13,
    },
];

// The one statement about the coefficients: each is the double nearest to its printed decimal.
fn table_4() -> [Coefficients; 4]
    ensures { result ≡ table }
{
    TABLE_4
}

// The end of a range belongs to it, and not to the next one.
pub(crate) fn coefficients_at(kelvin: f64) -> Coefficients
    requires { T (positive kelvin) }
    ensures { RowFor kelvin result }
{
    let rows = table_4();
    if kelvin <= 40.0 {
        return rows[0];
    }
    if kelvin <= 150.0 {
        return rows[1];
    }
    if kelvin <= 500.0 {
        return rows[2];
    }
    rows[3]
}

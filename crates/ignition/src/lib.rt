// The chance of ignition by a curve and a release rate (02, request P3).
#![tactic(auto)]

ghost use Rattle.std.specs.Prelude.{◌≡◌, ◌<◌};
ghost use Rattle.ignition.specs.Ignition.{column, ignition};

// A row for each curve: its chances at the thirteen rates, in millionths.
static CURVES: [[u32; 13]; 13] = [
    [
        1000, 1300, 1900, 2500, 7400, 20400, 33900, 56400, 110700, 184200, 306500, 600000, 600000,
    ],
    [
        1000, 1300, 1800, 2400, 4200, 8800, 15500, 27200, 57000, 100000, 100000, 100000, 100000,
    ],
    [
        1000, 1300, 1800, 2400, 4200, 8800, 13000, 13000, 13000, 13000, 13000, 13000, 13000,
    ],
    [
        1000, 1300, 1900, 2500, 5000, 12500, 25000, 50000, 125000, 250000, 500000, 650000, 650000,
    ],
    [
        1000, 1300, 1900, 2500, 4500, 9700, 17300, 31000, 67000, 120000, 130000, 130000, 130000,
    ],
    [
        1000, 1300, 1800, 2400, 4200, 8800, 15500, 27200, 50000, 50000, 50000, 50000, 50000,
    ],
    [
        1000, 1300, 1900, 2500, 5800, 17600, 40700, 94200, 286000, 481500, 600000, 700000, 700000,
    ],
    [
        1000, 1100, 1200, 1200, 1600, 2400, 3700, 6800, 15300, 28100, 51700, 120000, 120000,
    ],
    [
        1000, 1100, 1200, 1200, 1600, 2400, 3700, 6800, 15000, 15000, 15000, 15000, 15000,
    ],
    [
        1000, 1000, 1000, 1000, 1100, 1100, 1400, 2100, 2400, 2400, 2400, 2400, 2400,
    ],
    [
        1000, 1000, 1100, 1200, 3200, 12100, 33400, 91700, 349200, 960000, 1000000, 1000000,
        1000000,
    ],
    [
        1000, 1000, 1100, 1200, 2600, 7300, 16200, 35900, 102600, 227000, 355500, 643400, 1000000,
    ],
    [
        1000, 1000, 1100, 1200, 2500, 7100, 15400, 20400, 29600, 39200, 52000, 75500, 100000,
    ],
];

// The rates of the columns but the last, in tenths of a gram per second: all rates above these have the last column.
static RATES: [u32; 12] = [
    1_000, 2_000, 5_000, 10_000, 20_000, 50_000, 100_000, 200_000, 500_000, 1_000_000, 2_000_000,
    5_000_000,
];

// The place of the least tabulated rate that is not below a rate; the last above them all.
fn column_of(rate: u32) -> usize
    ensures { (result ≡ column rate) × (result < 13) }
{
    RATES.partition_point(|tabulated| *tabulated < rate)
}

// The chance of a curve from 1 to 13 at a rate; 0 of any other curve.
#[tactic(auto, using(crate::proofs::Laws::curve_at, crate::proofs::Laws::no_curve))]
pub fn chance(curve: u8, rate: u32) -> u32
    ensures { result ≡ ignition curve rate }
{
    if curve == 0 || 13 < curve {
        return 0;
    }
    CURVES[(curve - 1) as usize][column_of(rate)]
}

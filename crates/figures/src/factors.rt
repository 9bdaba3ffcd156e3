// The add-on factors of trades, per thousand of the notional (document 01, "Factors").
ghost use Rattle.std.specs.Prelude.{cond, ◌≡◌, ◌≤◌, ◌<◌};
ghost use Rattle.rules.specs.Factors.{band_of, credit_factor};
ghost use Rattle.figures.specs.Figures.{factor_figures};
ghost use Rattle.figures.specs.Floor.{factor_by, floor_of};

use rules::Bands;

// A row for each class and a column for each band: rates, currency and gold, equity, other precious metals, other commodities; then bought credit,
// floating against floating, and a class that is faulty. Behind the eight stand those with a qualifying reference, which only bought credit has.
const FACTORS: [[u8; 3]; 16] = [
    [0, 5, 15],
    [10, 50, 75],
    [60, 80, 100],
    [70, 70, 80],
    [100, 120, 150],
    [100, 100, 100],
    [0, 0, 0],
    [0, 0, 0],
    [0, 5, 15],
    [10, 50, 75],
    [60, 80, 100],
    [70, 70, 80],
    [100, 120, 150],
    [50, 50, 50],
    [0, 0, 0],
    [0, 0, 0],
];

// How far behind a class the same with a qualifying reference stands.
const QUALIFYING_ROWS: u32 = 8;

// "for 365 days or less, up to 1,825, beyond", by the counted days of the bands
pub fn band(bands: Bands, days: u32) -> usize
    ensures { result ≡ band_of bands days }
{
    if days <= bands.short {
        return 0;
    }
    if days <= bands.medium {
        return 1;
    }
    2
}

// "Credit: 50 qualifying, 100 not"
pub fn credit_factor(qualifying: bool) -> u32
    ensures { result ≡ credit_factor qualifying }
{
    if qualifying { 50 } else { 100 }
}

// "With bit 11 the reset days choose the band": the machine chooses between two numbers without a branch.
pub fn deciding_days(resets: bool, days: u32, reset_days: u32) -> u32
    ensures { result ≡ cond resets reset_days days }
{
    if resets { reset_days } else { days }
}

// "a rates trade with more than 365 days remaining then has at least 5", and "The reset floor uses the same one-year end": what is added to the
// figure of the first band, which is 0 for rates; in the other bands they have 5 and more. The remaining days decide whether it applies, not
// those that chose the band; where they pass the end, only a reset can have chosen the first.
#[tactic(auto, unfolding(crate::specs::Floor::floor_of))]
fn reset_floor(bands: Bands, class: u32, days: u32, deciding: u32) -> u32
    ensures { (result ≡ floor_of bands class days deciding) × (result ≤ 5) }
{
    if class > 0 {
        return 0;
    }
    if bands.short >= days {
        return 0;
    }
    if deciding > bands.short {
        return 0;
    }
    5
}

// The table of the paper, as `paper` says of each one. A caller makes it once and lends it for each trade, since the compiler makes a
// constant table anew where it is read.
#[derive(Drop)]
pub struct FactorTable {
    figures: [[u8; 3]; 16],
    ghost paper: { figures ≡ factor_figures },
}

impl FactorTable {
    pub fn new() -> FactorTable {
        FactorTable { figures: FACTORS }
    }

    // A class is a number, since it is a row of the table. The factor of a trade of any class, by the days that remain and those that decide on its band.
    #[tactic(auto, using(crate::proofs::Factor::cell_is), unfolding(crate::specs::Floor::factor_by))]
    pub fn factor(
        &self,
        bands: Bands,
        class: u32,
        qualifying: bool,
        days: u32,
        deciding: u32,
    ) -> u32
        requires { class < 8 }
        ensures { result ≡ factor_by bands class qualifying days deciding }
    {
        let floor = reset_floor(bands, class, days, deciding);
        let column = band(bands, deciding);
        let row = class + QUALIFYING_ROWS * u32::from(qualifying);
        floor + u32::from(self.figures[row as usize][column])
    }
}

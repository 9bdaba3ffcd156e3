// Runs of trades, which are most of what a bank's sets are made of: a loop of its own, with one test of a whole trade and a table that is made once.
ghost use Rattle.std.specs.Prelude.{◌-◌};
ghost use Rattle.derivatives.specs.Ahead.{Standing, TradesRead};

use figures::factors::FactorTable;
use records::record::{Record, good_at};
use rules::{Bands, amounts, lengths};
use weighing::read::TradeWords;
use weighing::tally::Tally;

// What a set comes to with a run of trades, and the place behind the last.
#[derive(Clone, Copy)]
pub struct TradeRun {
    pub tally: Tally,
    pub next: usize,
}

// All trades without a fault from a place on, up to the first word that begins none. A `while`, since the run ends at a word and not after a count, and
// the place behind it is asked for.
pub fn trades(part: &[u32], from: usize, t: Tally, bands: Bands) -> TradeRun
    requires { Standing part.now from t }
    ensures { TradesRead bands part.now from t result }
{
    let figures = FactorTable::new();
    let end = part.len().saturating_sub(amounts::TRADE);
    let mut tally = t;
    let mut at = from;
    while good_at::<TradeWords>(part, at, end, &()) {
        tally = tally.add_trade(&figures, bands, TradeWords::read(part, at));
        at += lengths::TRADE;
    }
    TradeRun { tally, next: at }
}

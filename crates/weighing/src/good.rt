// Trades, written credits and covers without a fault, by tests of their whole words.
ghost use Rattle.std.specs.Prelude.{suc};
ghost use Rattle.rules.specs.declared.kinds.Kind.TheVariants.{Cover, Trade, WrittenCredit};
ghost use Rattle.records.specs.Cause.{record_cause};
ghost use Rattle.records.specs.Readable.{Readable};
ghost use Rattle.weighing.specs.Words.{FaultAt, good_cover, good_trade, good_written};
ghost use Rattle.weighing.specs.Good.{cover_is, trade_is, written_is};

use crate::read::{CoverWords, TradeWords, WrittenWords};
use records::record::{Good, at_place, check_at, good_at};
use rules::causes::Refusal;
use rules::kinds::Kind;
use words::amount::{plain_amount, plain_days, plain_value, size};
use words::parts::is_head;

impl Good for TradeWords {
    const KIND: Kind = Kind::Trade;

    type Table = ();

    ghost KIND = { Trade };

    ghost good = { good_trade };

    #[tactic(auto, unfolding(crate::specs::Words::good_trade))]
    fn is_good(self, _table: &()) -> bool {
        let head = is_head(self.head, Kind::Trade, 13) & !self.class_faulty();
        let amounts = plain_value(self.value) & plain_amount(self.notional);
        let days = plain_days(self.days) & plain_days(self.reset_days);
        head & (amounts & days) & !self.resets_faulty()
    }

    ghost good_is = { trade_is };
}

impl Good for WrittenWords {
    const KIND: Kind = Kind::WrittenCredit;

    type Table = ();

    ghost KIND = { WrittenCredit };

    ghost good = { good_written };

    #[tactic(auto, unfolding(crate::specs::Words::good_written))]
    fn is_good(self, _table: &()) -> bool {
        let first = plain_value(self.value) & plain_amount(self.notional);
        let later = plain_amount(self.loss_taken) & plain_amount(self.premiums);
        let amounts = first & later & plain_days(self.days);
        let beyond = size(self.notional) < size(self.loss_taken);
        is_head(self.head, Kind::WrittenCredit, 23) & amounts & !beyond
    }

    ghost good_is = { written_is };
}

impl Good for CoverWords {
    const KIND: Kind = Kind::Cover;

    type Table = ();

    ghost KIND = { Cover };

    ghost good = { good_cover };

    // The whole word is compared with 0, not its size: with a mask the compiler makes a branch of it, which costs covered credit 5%
    // (docs/BENCHMARKS.md).
    #[tactic(auto, using(crate::proofs::GoodRecords::whole_amount), unfolding(crate::specs::Words::good_cover))]
    fn is_good(self, _table: &()) -> bool {
        let amount = plain_amount(self.amount) & (self.amount != 0);
        is_head(self.head, Kind::Cover, 12) & amount
    }

    ghost good_is = { cover_is };
}

// The first of the causes 6 to 9 of the record at a place, if there is one; they are not asked for where its whole words tell that there is none.
pub fn fault_at<R: Good<Table = ()>>(part: &[u32], at: usize) -> Result<(), Refusal>
    requires { Readable (suc at) part.now }
    ensures { FaultAt (record_cause R.AMOUNTS part.now at (R.fault (R.words_at part.now at))) at result }
{
    let end = part.len().saturating_sub(R::AMOUNTS);
    if good_at::<R>(part, at, end, &()) {
        return Ok(());
    }
    at_place(check_at::<R>(part, at), at)
}

// The tally of a derivative set (document 01, "Weighing a set"): "Each record adds to the tally of its set".
ghost use Rattle.std.specs.Prelude.{◌≡◌, ◌≤◌, ◌^◌};
ghost use Rattle.rules.specs.Word.{size_of};
ghost use Rattle.rules.specs.Book.{trade};
ghost use Rattle.rules.specs.Weigh.{trade_add_on, written_add_on};
ghost use Rattle.weighing.specs.Gathered.{TallyRoomy, plus_basket, plus_member, plus_written};
ghost use Rattle.weighing.specs.Words.{trade_of, written_of};

use crate::read::{TradeWords, WrittenWords};
use figures::factors::{FactorTable, credit_factor, deciding_days};
use rules::{Bands, payloads};
use weights::kept::kept_in;
use words::amount::{gain, loss, size};
use words::numbers::chosen;
use words::parts::{bit, field};

// The gains and losses of the values, the gross add-on, what does not stay in of those of written credits, notional less loss of
// written credits, and their covers. Add-ons are in thousandths, all else in units. With nothing gathered yet all are 0.
#[derive(Clone, Copy, Debug, PartialEq, Eq, Default)]
pub struct Tally {
    pub gains: u64,
    pub losses: u64,
    pub gross: u64,
    pub uncovered: u64,
    pub written: u64,
    pub covered: u64,
}

impl Tally {
    // The table of factors is lent, so that a run of trades makes it once.
    #[tactic(auto, using(laws::proofs::FactorBounds::trade_add_on_lem), unfolding(rules::specs::Read::trade_at))]
    pub fn add_trade(mut self, figures: &FactorTable, bands: Bands, t: TradeWords) -> Tally
        requires { TallyRoomy self }
        ensures { result ≡ plus_member bands self (trade (trade_of t)) }
    {
        let add_on = t.add_on(figures, bands);
        self.gains += u64::from(gain(t.value));
        self.losses += u64::from(loss(t.value));
        self.gross += add_on;
        self
    }

    // A basket joins V, G and A "like a trade". The gain comes last, which is the fastest order (docs/BENCHMARKS.md, A.1).
    pub fn add_basket(mut self, value: u32, gross: u64) -> Tally
        requires { TallyRoomy self × (gross ≤ 2 ^ 62) }
        ensures { result ≡ plus_basket self value gross }
    {
        self.losses += u64::from(loss(value));
        self.gross += gross;
        self.gains += u64::from(gain(value));
        self
    }

    #[tactic(auto, using(laws::proofs::FactorBounds::written_add_on_lem, crate::proofs::AddOns::remainder_is), unfolding(rules::specs::Read::written_at))]
    pub fn add_written(mut self, w: WrittenWords, covered: u64) -> Tally
        requires { TallyRoomy self × ((size_of w.loss_taken ≤ size_of w.notional) × (covered ≤ 2 ^ 62)) }
        ensures { result ≡ plus_written self (written_of w) covered }
    {
        let add_on = w.add_on();
        let notional = size(w.notional);
        let written = notional - size(w.loss_taken);
        self.gross += add_on;
        self.gains += u64::from(gain(w.value));
        self.losses += u64::from(loss(w.value));
        self.written += u64::from(written);
        self.covered += covered;
        let kept = kept_in(add_on, covered, u64::from(notional));
        self.uncovered += add_on - kept;
        self
    }
}

impl TradeWords {
    // The factor, "multiplied by n", of the notional.
    #[tactic(auto, using(figures::proofs::Factor::factor_is, laws::proofs::FactorBounds::factor_small, crate::proofs::AddOns::three_factors), unfolding(rules::specs::Weigh::trade_add_on, rules::specs::Read::trade_at))]
    fn add_on(self, figures: &FactorTable, bands: Bands) -> u64
        ensures { result ≡ trade_add_on bands (trade_of self) }
    {
        let resets = bit(self.head, payloads::TRADE_RESETS);
        let days = size(self.days);
        let deciding = deciding_days(resets, days, size(self.reset_days));
        let factor = figures.factor(
            bands,
            field(self.head, payloads::TRADE_CLASS, payloads::TRADE_CLASS_BITS),
            bit(self.head, payloads::TRADE_QUALIFYING),
            days,
            deciding,
        );
        let payments = field(
            self.head,
            payloads::TRADE_PAYMENTS,
            payloads::TRADE_PAYMENTS_BITS,
        );
        u64::from(factor) * u64::from(payments) * u64::from(size(self.notional))
    }
}

impl WrittenWords {
    // "Written total return swap: factor times notional. Written default swap: 0 without close-out, otherwise the lesser of that
    // product and 1,000 times unpaid premiums." Without close-out the bound is 0.
    #[tactic(auto, using(crate::proofs::AddOns::bounded_is), unfolding(rules::specs::Weigh::written_add_on, rules::specs::Read::written_at))]
    fn add_on(self) -> u64
        ensures { result ≡ written_add_on (written_of self) }
    {
        let factor = credit_factor(bit(self.head, payloads::WRITTEN_QUALIFYING));
        let product = u64::from(factor) * u64::from(size(self.notional));
        let bound = chosen(
            bit(self.head, payloads::WRITTEN_CLOSE_OUT),
            1000 * u64::from(size(self.premiums)),
            0,
        );
        chosen(
            bit(self.head, payloads::WRITTEN_TOTAL_RETURN),
            product,
            product.min(bound),
        )
    }
}

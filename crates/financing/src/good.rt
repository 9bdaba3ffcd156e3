// A financing trade without a fault, told by few tests of its words; its cause is asked only where one stands that is not so.
ghost use Rattle.std.specs.Prelude.{◌≡◌, ◌-◌, ◌^◌, ◌≤◌, length};
ghost use Rattle.rules.specs.Word.{bit_of, word};
ghost use Rattle.financing.specs.Good.{good_days, good_trade, own_most, own_within, sound_trade};

use crate::read::{FinancingTradeWords, financing_trade_words};
use rules::kinds::Kind;
use rules::limits;
use words::amount::plain_amount;
use words::parts::is_head;

// The largest amount: "bits 26 to 0 the size".
pub const LARGEST: u32 = (1 << 27) - 1;

// Days up to 65,535 that do not fall.
fn good_days(last_days: u32, days: u32) -> bool
    ensures { result ≡ good_days last_days days }
{
    (days <= limits::DAYS) & (last_days <= days)
}

// The first four amounts: securities and receivable are within the asset, and so with it within what the set allows.
fn own_within(most: u32, t: FinancingTradeWords) -> bool
    ensures { result ≡ own_within most t }
{
    let within = u64::from(t.securities) + u64::from(t.receivable) <= u64::from(t.asset);
    (t.asset <= most) & (t.payable <= most) & within
}

// None of the causes 6 to 10. Few trades have one, so each of these branches goes one way.
#[tactic(auto, unfolding(crate::specs::Good::good_trade))]
fn good_words(most: u32, last_days: u32, t: FinancingTradeWords) -> bool
    ensures { result ≡ good_trade most last_days t }
{
    is_head(t.head, Kind::FinancingTrade, 1)
        && good_days(last_days, t.days)
        && own_within(most, t)
        && plain_amount(t.lent) & plain_amount(t.received)
}

// A trade without a fault stands at a place of its set. Its words are all there before `end`, which is the part's length less its amounts. It
// hangs on the set and on the trade before, so it is no `Good` record.
#[tactic(auto, using(crate::proofs::Sound::no_trade, crate::proofs::Sound::trade_is))]
pub fn good_trade(part: &[u32], at: usize, end: usize, most: u32, last_days: u32) -> bool
    requires { (length part.now ≤ 2 ^ 20) × (end ≡ length part.now - 7) × (most ≡ own_most (bit_of 1 (word part.now 0))) }
    ensures { result ≡ sound_trade last_days part.now at }
{
    if end <= at {
        return false;
    }
    good_words(most, last_days, financing_trade_words(part, at))
}

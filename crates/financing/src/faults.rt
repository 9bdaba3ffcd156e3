// The causes 6 to 10 of a financing set and of a financing trade (document 01, "When a book is turned away").
ghost use Rattle.std.specs.Prelude.{◌≡◌, suc};
ghost use Rattle.rules.specs.Faults.{financing_set_fault};
ghost use Rattle.rules.specs.Numbers.{fault_in};
ghost use Rattle.records.specs.Readable.{Readable};
ghost use Rattle.financing.specs.Words.{financing_trade_cause, financing_trade_fault_of, odds_in, unreadable_in};

use crate::read::{FinancingTradeWords, financing_trade_words};
use records::presence::lacking;
use rules::causes::Cause;
use rules::{amounts, payloads};
use words::amount::{faulty_amount, faulty_days, size};
use words::causes::refuse_if;
use words::parts::{bit, payload};

// "2 further exposure (needs bit 1)"
#[tactic(auto, unfolding(rules::specs::Faults::cause, rules::specs::Faults::financing_set_fault))]
pub fn check_set(w: u32) -> Result<(), Cause>
    ensures { fault_in result ≡ financing_set_fault w }
{
    let further_alone = bit(w, payloads::FINANCING_FURTHER) & !bit(w, payloads::FINANCING_AGENT);
    refuse_if(
        (payload(w) >= payloads::FINANCING_SET_END) | further_alone,
        Cause::PayloadFaulty,
    )
}

// The trade at a place, by its set and by the days of the trade before: no record by itself, so no `Record`.
#[tactic(auto, unfolding(rules::specs::Faults::cause), using(records::proofs::Words::whole))]
pub fn check_trade_at(part: &[u32], at: usize, agent: bool, last_days: u32) -> Result<(), Cause>
    requires { Readable (suc at) part.now }
    ensures { fault_in result ≡ financing_trade_cause agent last_days part.now at }
{
    refuse_if(
        lacking(part, at, amounts::FINANCING_TRADE),
        Cause::WordsLacking,
    )?;
    check_trade(agent, last_days, financing_trade_words(part, at))
}

#[tactic(auto, unfolding(rules::specs::Faults::cause, rules::specs::Faults::financing_trade_fault))]
fn check_trade(agent: bool, last_days: u32, t: FinancingTradeWords) -> Result<(), Cause>
    ensures { fault_in result ≡ financing_trade_fault_of agent last_days t }
{
    refuse_if(
        payload(t.head) >= payloads::FINANCING_TRADE_END,
        Cause::PayloadFaulty,
    )?;
    refuse_if(unreadable(t), Cause::AmountFaulty)?;
    refuse_if(at_odds(agent, t), Cause::AmountsAtOdds)?;
    refuse_if(size(t.days) < last_days, Cause::DaysFall)
}

// An amount is negative, or the days are beyond 65,535.
fn unreadable(t: FinancingTradeWords) -> bool
    ensures { result ≡ unreadable_in t }
{
    faulty_amount(t.asset)
        | faulty_amount(t.securities)
        | faulty_amount(t.receivable)
        | faulty_amount(t.payable)
        | faulty_amount(t.lent)
        | faulty_amount(t.received)
        | faulty_days(t.days)
}

// "Securities plus receivable at most gross asset; in an agent set the first four are 0."
fn at_odds(agent: bool, t: FinancingTradeWords) -> bool
    ensures { result ≡ odds_in agent t }
{
    let asset = size(t.asset);
    let securities = size(t.securities);
    let receivable = size(t.receivable);
    (asset < securities + receivable)
        | (agent & (asset + securities + receivable + size(t.payable) != 0))
}

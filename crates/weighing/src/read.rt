// The words of each record of a derivative set, by the field's names (document 01, "Records", kinds 4 to 7), and the causes 7 to 9 that fit them
// ("When a book is turned away").
ghost use Rattle.weighing.specs.Words.{cover_fault_of, cover_words, set_fault_of, set_words_at, trade_fault_of, trade_words, written_fault_of, written_words};
ghost use Rattle.std.proofs.Common.{rules};

use records::record::Record;
use rules::causes::Cause;
use rules::{amounts, payloads};
use words::amount::{faulty_amount, size};
use words::causes::refuse_if;
use words::parts::payload;

// Kind 4.
#[derive(Clone, Copy, Debug, PartialEq, Eq)]
pub struct SetWords {
    pub head: u32,
    pub received: u32,
    pub paid: u32,
    pub posted: u32,
}

// Kind 5.
#[derive(Clone, Copy, Debug, PartialEq, Eq)]
pub struct TradeWords {
    pub head: u32,
    pub value: u32,
    pub notional: u32,
    pub days: u32,
    pub reset_days: u32,
}

// Kind 6.
#[derive(Clone, Copy, Debug, PartialEq, Eq)]
pub struct WrittenWords {
    pub head: u32,
    pub value: u32,
    pub notional: u32,
    pub loss_taken: u32,
    pub days: u32,
    pub premiums: u32,
}

// Kind 7.
#[derive(Clone, Copy, Debug, PartialEq, Eq)]
pub struct CoverWords {
    pub head: u32,
    pub amount: u32,
}

impl Record for SetWords {
    const AMOUNTS: usize = amounts::DERIVATIVE_SET;

    ghost AMOUNTS = { 3 };

    ghost words_at = { set_words_at };

    ghost fault = { set_fault_of };

    fn read(part: &[u32], at: usize) -> Self {
        SetWords {
            head: part[at],
            received: part[at + 1],
            paid: part[at + 2],
            posted: part[at + 3],
        }
    }

    #[tactic(auto, unfolding(rules::specs::Faults::cause, rules::specs::Faults::derivative_set_fault))]
    fn check(self) -> Result<(), Cause> {
        let margin = faulty_amount(self.received) | faulty_amount(self.paid);
        refuse_if(
            payload(self.head) >= payloads::DERIVATIVE_SET_END,
            Cause::PayloadFaulty,
        )?;
        refuse_if(margin | faulty_amount(self.posted), Cause::AmountFaulty)
    }

    ghost some_amounts = { Prim.search rules };

    ghost few_amounts = { Prim.search rules };
}

impl Record for TradeWords {
    const AMOUNTS: usize = amounts::TRADE;

    ghost AMOUNTS = { 4 };

    ghost words_at = { trade_words };

    ghost fault = { trade_fault_of };

    fn read(part: &[u32], at: usize) -> Self {
        TradeWords {
            head: part[at],
            value: part[at + 1],
            notional: part[at + 2],
            days: part[at + 3],
            reset_days: part[at + 4],
        }
    }

    #[tactic(auto, unfolding(rules::specs::Faults::cause, rules::specs::Faults::trade_fault))]
    fn check(self) -> Result<(), Cause> {
        refuse_if(self.bits_faulty(), Cause::PayloadFaulty)?;
        refuse_if(self.amounts_faulty(), Cause::AmountFaulty)?;
        refuse_if(self.resets_faulty(), Cause::AmountsAtOdds)
    }

    ghost some_amounts = { Prim.search rules };

    ghost few_amounts = { Prim.search rules };
}

impl Record for WrittenWords {
    const AMOUNTS: usize = amounts::WRITTEN_CREDIT;

    ghost AMOUNTS = { 5 };

    ghost words_at = { written_words };

    ghost fault = { written_fault_of };

    fn read(part: &[u32], at: usize) -> Self {
        WrittenWords {
            head: part[at],
            value: part[at + 1],
            notional: part[at + 2],
            loss_taken: part[at + 3],
            days: part[at + 4],
            premiums: part[at + 5],
        }
    }

    // "loss taken into Tier 1 (at most notional)"
    #[tactic(auto, unfolding(rules::specs::Faults::cause, rules::specs::Faults::written_fault))]
    fn check(self) -> Result<(), Cause> {
        let beyond = size(self.notional) < size(self.loss_taken);
        refuse_if(
            payload(self.head) >= payloads::WRITTEN_CREDIT_END,
            Cause::PayloadFaulty,
        )?;
        refuse_if(self.amounts_faulty(), Cause::AmountFaulty)?;
        refuse_if(beyond, Cause::AmountsAtOdds)
    }

    ghost some_amounts = { Prim.search rules };

    ghost few_amounts = { Prim.search rules };
}

impl Record for CoverWords {
    const AMOUNTS: usize = amounts::COVER;

    ghost AMOUNTS = { 1 };

    ghost words_at = { cover_words };

    ghost fault = { cover_fault_of };

    fn read(part: &[u32], at: usize) -> Self {
        CoverWords {
            head: part[at],
            amount: part[at + 1],
        }
    }

    // "Amount, at least 1"
    #[tactic(auto, unfolding(rules::specs::Faults::cause, rules::specs::Faults::cover_fault))]
    fn check(self) -> Result<(), Cause> {
        let amount = faulty_amount(self.amount) | (size(self.amount) == 0);
        refuse_if(
            payload(self.head) >= payloads::COVER_END,
            Cause::PayloadFaulty,
        )?;
        refuse_if(amount, Cause::AmountFaulty)
    }

    ghost some_amounts = { Prim.search rules };

    ghost few_amounts = { Prim.search rules };
}

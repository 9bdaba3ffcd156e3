// Kind 3, a bought protection.
ghost use Rattle.std.specs.Prelude.{◌≡◌, ◌^◌, ◌≤◌};
ghost use Rattle.std.proofs.Common.{rules};
ghost use Rattle.rules.specs.Faults.{protection_fault};
ghost use Rattle.records.specs.Step.{protection_words};

use crate::presence::word_at;
use crate::record::Record;
use rules::causes::Cause;
use rules::{amounts, payloads};
use words::amount::{faulty_amount, faulty_days, size};
use words::causes::refuse_if;
use words::parts::payload;

// The words of a protection.
#[derive(Clone, Copy)]
pub struct ProtectionWords {
    pub head: u32,
    pub notional: u32,
    pub gain: u32,
    pub days: u32,
}

impl Record for ProtectionWords {
    const AMOUNTS: usize = amounts::PROTECTION;

    ghost AMOUNTS = { 3 };

    ghost words_at = { protection_words };

    ghost fault = { λ p. protection_fault p.head p.notional p.gain p.days };

    // Words that are not there are 0: the register is loaded before the book is read.
    fn read(part: &[u32], at: usize) -> Self
        requires { at ≤ 2 ^ 20 }
        ensures { result ≡ protection_words part.now at }
    {
        ProtectionWords {
            head: word_at(part, at),
            notional: word_at(part, at + 1),
            gain: word_at(part, at + 2),
            days: word_at(part, at + 3),
        }
    }

    // "gain (at most notional)"
    #[tactic(auto, unfolding(rules::specs::Faults::cause, rules::specs::Faults::protection_fault))]
    fn check(self) -> Result<(), Cause> {
        refuse_if(
            payload(self.head) >= payloads::PROTECTION_END,
            Cause::PayloadFaulty,
        )?;
        refuse_if(
            faulty_amount(self.notional) | faulty_amount(self.gain) | faulty_days(self.days),
            Cause::AmountFaulty,
        )?;
        refuse_if(size(self.notional) < size(self.gain), Cause::AmountsAtOdds)
    }

    ghost some_amounts = { Prim.search rules };

    ghost few_amounts = { Prim.search rules };
}

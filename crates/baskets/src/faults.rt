// The causes of a basket whose words are all there, 6 for one that is no amount and then 7, 8 and 17.
ghost use Rattle.std.specs.Prelude.{◌≡◌};
ghost use Rattle.rules.specs.Numbers.{fault_in};
ghost use Rattle.rules.specs.Word.{names_in, nth_in};
ghost use Rattle.rules.specs.Faults.{names_fault};
ghost use Rattle.baskets.specs.Words.{cause_of};

use crate::read::BasketWords;
use rules::causes::Cause;
use rules::kinds::Kind;
use rules::{limits, payloads};
use words::amount::{faulty_amount, minus_zero};
use words::causes::refuse_if;
use words::parts::{field, is_kind, payload};

impl BasketWords {
    // 17 is "last among that record's causes". A test that one of the grades fails, the word with the bits of all of them fails.
    #[tactic(auto, unfolding(rules::specs::Faults::cause, crate::specs::Words::cause_of))]
    pub fn check(self) -> Result<(), Cause>
        ensures { fault_in result ≡ cause_of self }
    {
        let others = !is_kind(self.value, Kind::Amount) | !is_kind(self.notional, Kind::Amount);
        let lacking = others | !is_kind(self.all, Kind::Amount);
        refuse_if(lacking, Cause::WordsLacking)?;
        let beyond = payload(self.head) >= payloads::BASKET_END;
        refuse_if(beyond, Cause::PayloadFaulty)?;
        let signs = minus_zero(self.value) | faulty_amount(self.notional);
        refuse_if(signs | faulty_amount(self.all), Cause::AmountFaulty)?;
        let range = names_faulty(self.head) | (payload(self.all) > limits::GRADE);
        refuse_if(range, Cause::BasketFaulty)
    }
}

// "both 1 to 32 and n at most m": where n is at least 1, m at most 32 and n at most m, the other two ends hold.
fn names_faulty(head: u32) -> bool
    ensures { result ≡ names_fault (nth_in head) (names_in head) }
{
    let nth = field(head, payloads::BASKET_NTH, payloads::BASKET_NTH_BITS);
    let names = field(head, payloads::BASKET_NAMES, payloads::BASKET_NAMES_BITS);
    (nth < 1) | (names > limits::NAMES) | (names < nth)
}

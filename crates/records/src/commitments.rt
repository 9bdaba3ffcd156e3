// Kind 10, an off-balance item.
ghost use Rattle.std.specs.Prelude.{◌≡◌, ◌*◌, ◌^◌, ◌<◌};
ghost use Rattle.std.proofs.Common.{rules};
ghost use Rattle.rules.specs.declared.kinds.Kind.TheVariants.{OffBalance};
ghost use Rattle.rules.specs.Word.{field_of};
ghost use Rattle.rules.specs.Faults.{off_balance_fault};
ghost use Rattle.rules.specs.Factors.{conversion_of};
ghost use Rattle.rules.specs.Book.{off_balance};
ghost use Rattle.rules.specs.Read.{off_balance_at};
ghost use Rattle.rules.specs.Rows.{row18};
ghost use Rattle.records.specs.Step.{good_off_balance, off_balance_list, off_balance_sums, off_balance_words};
ghost use Rattle.records.specs.Good.{off_balance_is};

use crate::record::{Good, Record};
use figures::conversion::ConversionTable;
use rules::causes::Cause;
use rules::kinds::Kind;
use rules::{Sums, amounts, payloads};
use words::amount::{faulty_amount, plain_amount, size};
use words::causes::refuse_if;
use words::parts::{field, is_head, payload};

// The words of an off-balance item.
#[derive(Clone, Copy)]
pub struct OffBalanceWords {
    pub head: u32,
    pub notional: u32,
}

impl Record for OffBalanceWords {
    const AMOUNTS: usize = amounts::OFF_BALANCE;

    ghost AMOUNTS = { 1 };

    ghost words_at = { off_balance_words };

    ghost fault = { λ o. off_balance_fault o.head o.notional };

    fn read(part: &[u32], at: usize) -> Self {
        OffBalanceWords {
            head: part[at],
            notional: part[at + 1],
        }
    }

    // Classes 0 to 10, and 0 or one more than a class.
    #[tactic(auto, unfolding(rules::specs::Faults::cause, rules::specs::Faults::off_balance_fault))]
    fn check(self) -> Result<(), Cause> {
        refuse_if(
            (payload(self.head) >= payloads::OFF_BALANCE_END)
                | (self.class() > payloads::OFF_BALANCE_CLASS_LAST)
                | (self.committed() > payloads::OFF_BALANCE_COMMITTED_LAST),
            Cause::PayloadFaulty,
        )?;
        refuse_if(faulty_amount(self.notional), Cause::AmountFaulty)
    }

    ghost some_amounts = { Prim.search rules };

    ghost few_amounts = { Prim.search rules };
}

impl OffBalanceWords {
    pub fn class(self) -> u32
        ensures { result ≡ field_of 0 4 self.head }
    {
        field(
            self.head,
            payloads::OFF_BALANCE_CLASS,
            payloads::OFF_BALANCE_CLASS_BITS,
        )
    }

    // 0, or one more than the class of the item committed to.
    pub fn committed(self) -> u32
        ensures { result ≡ field_of 4 4 self.head }
    {
        field(
            self.head,
            payloads::OFF_BALANCE_COMMITTED,
            payloads::OFF_BALANCE_COMMITTED_BITS,
        )
    }

    // Per thousand: "With bits 4-7 the lower of two applies"; 0 where a class is faulty.
    pub fn figure(self, figures: &ConversionTable) -> u64
        ensures { result ≡ conversion_of (field_of 0 4 self.head) (field_of 4 4 self.head) }
    {
        figures.conversion(self.class(), self.committed())
    }
}

impl Good for OffBalanceWords {
    const KIND: Kind = Kind::OffBalance;

    type Table = ConversionTable;

    ghost KIND = { OffBalance };

    ghost good = { good_off_balance };

    // A class that is faulty has no figure.
    #[tactic(auto, unfolding(crate::specs::Step::good_off_balance))]
    fn is_good(self, figures: &ConversionTable) -> bool {
        is_head(self.head, Kind::OffBalance, 8)
            & plain_amount(self.notional)
            & (self.figure(figures) != 0)
    }

    ghost good_is = { off_balance_is };
}

// "18: −unconverted part": what its figure leaves of the notional, in thousandths.
#[tactic(auto, unfolding(rules::specs::Read::off_balance_at), using(laws::proofs::FactorBounds::conversion_at_most))]
pub fn unconverted_by(o: OffBalanceWords, figures: &ConversionTable) -> u64
    ensures { result ≡ row18 (off_balance (off_balance_at (off_balance_list o))) }
{
    (1000 - o.figure(figures)) * u64::from(size(o.notional))
}

pub fn off_balance_sums(notionals: u64, unconverted: u64) -> Sums
    requires { 1000 * notionals < 2 ^ 64 }
    ensures { result ≡ off_balance_sums notionals unconverted }
{
    Sums {
        committed: 1000 * notionals,
        unconverted,
        ..Sums::default()
    }
}

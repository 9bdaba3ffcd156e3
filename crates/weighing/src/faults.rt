// What is faulty in the words of a trade and of a written credit (document 01, "When a book is turned away", causes 7 to 9).
ghost use Rattle.std.specs.Prelude.{◌≡◌, not, ◌||◌, ◌&&◌, ◌^◌, eqb, leb, ltb};
ghost use Rattle.rules.specs.Word.{bit_of, faulty_amount, faulty_days, field_of, minus_zero, payload_of, size_of};
ghost use Rattle.rules.specs.Faults.{trade_bits_fault};

use crate::read::{TradeWords, WrittenWords};
use rules::payloads;
use words::amount::{faulty_amount, faulty_days, minus_zero, size};
use words::parts::{bit, field, payload};

impl TradeWords {
    // Bits without a meaning, or a class, payments and a reference that do not go together.
    pub fn bits_faulty(self) -> bool
        ensures { result ≡ (leb (2 ^ 13) (payload_of self.head) || trade_bits_fault (field_of 0 3 self.head) (field_of 3 8 self.head) (bit_of 12 self.head)) }
    {
        (payload(self.head) >= payloads::TRADE_END) | self.class_faulty()
    }

    // "7 is faulty"; payments are "1 to 255", of bought credit "n is 1"; "12 qualifying reference (class 5 only)".
    pub fn class_faulty(self) -> bool
        ensures { result ≡ trade_bits_fault (field_of 0 3 self.head) (field_of 3 8 self.head) (bit_of 12 self.head) }
    {
        let class = field(self.head, payloads::TRADE_CLASS, payloads::TRADE_CLASS_BITS);
        let payments = field(
            self.head,
            payloads::TRADE_PAYMENTS,
            payloads::TRADE_PAYMENTS_BITS,
        );
        let qualifying = bit(self.head, payloads::TRADE_QUALIFYING);
        let bought = class == payloads::CLASS_BOUGHT_CREDIT;
        let unpaid = (class == payloads::CLASS_FAULTY) | (payments == 0);
        unpaid | (bought & (payments != 1)) | (qualifying & !bought)
    }

    pub fn amounts_faulty(self) -> bool
        ensures { result ≡ (minus_zero self.value || faulty_amount self.notional || faulty_days self.days || faulty_days self.reset_days) }
    {
        minus_zero(self.value)
            | faulty_amount(self.notional)
            | faulty_days(self.days)
            | faulty_days(self.reset_days)
    }

    // "days to next reset (at most remaining; equal to it if bit 11 is 0)". With the bit the gap may be 2^27, which no gap is; the bit is
    // multiplied, so that no branch hangs on it.
    pub fn resets_faulty(self) -> bool
        ensures { result ≡ (ltb (size_of self.days) (size_of self.reset_days) || (not (bit_of 11 self.head) && not (eqb (size_of self.reset_days) (size_of self.days)))) }
    {
        let remaining = size(self.days);
        let next = size(self.reset_days);
        if remaining < next {
            return true;
        }
        remaining - next > 0x08000000 * u32::from(bit(self.head, payloads::TRADE_RESETS))
    }
}

impl WrittenWords {
    pub fn amounts_faulty(self) -> bool
        ensures { result ≡ (minus_zero self.value || faulty_amount self.notional || faulty_amount self.loss_taken || faulty_days self.days || faulty_amount self.premiums) }
    {
        minus_zero(self.value)
            | faulty_amount(self.notional)
            | faulty_amount(self.loss_taken)
            | faulty_days(self.days)
            | faulty_amount(self.premiums)
    }
}

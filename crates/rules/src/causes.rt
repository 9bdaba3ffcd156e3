// The causes for which a book is turned away (document 01, "When a book is turned away"), and what is answered then.
ghost use Rattle.std.specs.Prelude.{◌≡◌, Some};
ghost use Rattle.std.specs.Fmt.{decimal};
ghost use Rattle.rules.specs.Numbers.{cause_number, refused_text};

use std::fmt;

#[derive(Clone, Copy, Debug, PartialEq, Eq)]
pub enum Cause {
    RowsShort,
    BookLong,
    HeadFaulty,
    RegisterShort,
    KindNotAllowed,
    WordsLacking,
    PayloadFaulty,
    AmountFaulty,
    AmountsAtOdds,
    DaysFall,
    NoSuchProtection,
    ProtectionUnfit,
    CoverBeyond,
    EndFaulty,
    NoSuchSet,
    DateFaulty,
    BasketFaulty,
}

// A cause, and the place of the record that has it.
#[derive(Clone, Copy, Debug, PartialEq, Eq)]
pub struct Refusal {
    pub cause: Cause,
    pub place: usize,
}

// The paper's number.
impl From<Cause> for u32 {
    ghost from_gives = { λ c n. n ≡ cause_number c };

    fn from(c: Cause) -> u32 {
        match c {
            Cause::RowsShort => 1,
            Cause::BookLong => 2,
            Cause::HeadFaulty => 3,
            Cause::RegisterShort => 4,
            Cause::KindNotAllowed => 5,
            Cause::WordsLacking => 6,
            Cause::PayloadFaulty => 7,
            Cause::AmountFaulty => 8,
            Cause::AmountsAtOdds => 9,
            Cause::DaysFall => 10,
            Cause::NoSuchProtection => 11,
            Cause::ProtectionUnfit => 12,
            Cause::CoverBeyond => 13,
            Cause::EndFaulty => 14,
            Cause::NoSuchSet => 15,
            Cause::DateFaulty => 16,
            Cause::BasketFaulty => 17,
        }
    }
}

impl fmt::Display for Cause {
    ghost output = { λ c. Some (decimal (cause_number c)) };

    fn fmt<W: fmt::Write>(&self, f: &mut fmt::Formatter<W>) -> fmt::Result {
        write!(f, "{}", u32::from(*self))
    }
}

impl fmt::Display for Refusal {
    ghost output = { λ r. Some (refused_text r) };

    fn fmt<W: fmt::Write>(&self, f: &mut fmt::Formatter<W>) -> fmt::Result {
        write!(f, "refused {} at {}", self.cause, self.place)
    }
}

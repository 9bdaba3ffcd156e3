// The kinds of words: "bits 31 to 28 are its kind" (document 01, "Records").
ghost use Rattle.std.specs.Prelude.{◌≡◌};
ghost use Rattle.rules.specs.Numbers.{kind_number, KindOf};

#[derive(Clone, Copy, Debug, PartialEq, Eq)]
pub enum Kind {
    Amount,
    Head,
    Asset,
    Protection,
    DerivativeSet,
    Trade,
    WrittenCredit,
    Cover,
    FinancingSet,
    FinancingTrade,
    OffBalance,
    Basket,
    End,
}

// A number that is of no kind.
#[derive(Clone, Copy, Debug, PartialEq, Eq)]
pub struct NoKind(pub u32);

// The paper's number.
impl From<Kind> for u32 {
    ghost from_gives = { λ k n. n ≡ kind_number k };

    fn from(k: Kind) -> u32 {
        match k {
            Kind::Amount => 0,
            Kind::Head => 1,
            Kind::Asset => 2,
            Kind::Protection => 3,
            Kind::DerivativeSet => 4,
            Kind::Trade => 5,
            Kind::WrittenCredit => 6,
            Kind::Cover => 7,
            Kind::FinancingSet => 8,
            Kind::FinancingTrade => 9,
            Kind::OffBalance => 10,
            Kind::Basket => 11,
            Kind::End => 15,
        }
    }
}

impl TryFrom<u32> for Kind {
    type Error = NoKind;

    ghost try_from_gives = { KindOf };

    fn try_from(number: u32) -> Result<Self, NoKind> {
        match number {
            0 => Ok(Kind::Amount),
            1 => Ok(Kind::Head),
            2 => Ok(Kind::Asset),
            3 => Ok(Kind::Protection),
            4 => Ok(Kind::DerivativeSet),
            5 => Ok(Kind::Trade),
            6 => Ok(Kind::WrittenCredit),
            7 => Ok(Kind::Cover),
            8 => Ok(Kind::FinancingSet),
            9 => Ok(Kind::FinancingTrade),
            10 => Ok(Kind::OffBalance),
            11 => Ok(Kind::Basket),
            15 => Ok(Kind::End),
            _ => Err(NoKind(number)),
        }
    }
}

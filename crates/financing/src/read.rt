// The words of a financing trade, by the field's names (document 01, "Records", kind 9).
ghost use Rattle.std.specs.Prelude.{◌≡◌, ◌+◌};
ghost use Rattle.records.specs.Readable.{Readable};
ghost use Rattle.financing.specs.Words.{financing_trade_words};

#[derive(Clone, Copy)]
pub struct FinancingTradeWords {
    pub head: u32,
    pub asset: u32,
    pub securities: u32,
    pub receivable: u32,
    pub payable: u32,
    pub lent: u32,
    pub received: u32,
    pub days: u32,
}

pub fn financing_trade_words(part: &[u32], at: usize) -> FinancingTradeWords
    requires { Readable (at + 8) part.now }
    ensures { result ≡ financing_trade_words part.now at }
{
    FinancingTradeWords {
        head: part[at],
        asset: part[at + 1],
        securities: part[at + 2],
        receivable: part[at + 3],
        payable: part[at + 4],
        lent: part[at + 5],
        received: part[at + 6],
        days: part[at + 7],
    }
}

// The tally of a financing set: its sums so far, and the cash of the day that is not closed yet.
ghost use Rattle.std.specs.Prelude.{◌≡◌, ◌+◌, ◌^◌, ◌≤◌};
ghost use Rattle.financing.specs.Good.{PlainTrade};
ghost use Rattle.financing.specs.Weighing.{TallyFits, TallyRoomy, excess_in, netted_in, set_sums, settled, tallied};
ghost use Rattle.financing.specs.Words.{financing_trade_of};

use crate::read::FinancingTradeWords;
use rules::{Sums, payloads};
use words::numbers::chosen;
use words::parts::bit;

// Gross assets less securities, value lent and value received, what was lent beyond what was received trade by trade; cash netted of
// the days that are closed, and the day of the trade before with its receivables and payables.
#[derive(Clone, Copy, Default)]
pub struct FinancingTally {
    pub assets: u64,
    pub lent: u64,
    pub received: u64,
    pub excess: u64,
    pub closed: u64,
    pub day: u32,
    pub receivable: u64,
    pub payable: u64,
}

impl FinancingTally {
    // One trade more, by its words: amounts without a sign, so that no mask is needed to have their sizes.
    #[tactic(auto, unfolding(crate::specs::Weighing::tallied), using(crate::proofs::Sound::plain_read))]
    pub fn add(mut self, t: FinancingTradeWords) -> FinancingTally
        requires { TallyRoomy self × PlainTrade t }
        ensures { result ≡ tallied self (financing_trade_of t) }
    {
        let lent = u64::from(t.lent);
        let received = u64::from(t.received);
        self.assets = self.assets + u64::from(t.asset - t.securities);
        self.lent = self.lent + lent;
        self.received = self.received + received;
        self.excess = self.excess + lent.saturating_sub(received);
        self.settle(t)
    }

    // "cash netted is the lesser of summed receivables and summed payables; the days are added": a new day closes the one before.
    #[tactic(auto, unfolding(crate::specs::Weighing::settled), using(crate::proofs::Sound::plain_read))]
    fn settle(mut self, t: FinancingTradeWords) -> FinancingTally
        requires { (self.closed + self.receivable + self.payable ≤ 2 ^ 62) × PlainTrade t }
        ensures { result ≡ settled self (financing_trade_of t) }
    {
        let same = t.days == self.day;
        let marked = bit(t.head, payloads::FINANCING_TRADE_NET_SETTLED);
        self.closed = self.closed + chosen(same, 0, self.receivable.min(self.payable));
        self.day = t.days;
        self.receivable = chosen(same, self.receivable, 0)
            + chosen(marked, u64::from(t.receivable), 0);
        self.payable = chosen(same, self.payable, 0) + chosen(marked, u64::from(t.payable), 0);
        self
    }

    // The cash netted of all days, the last one too.
    pub fn netted(self) -> u64
        requires { TallyFits self }
        ensures { result ≡ netted_in self }
    {
        self.closed + self.receivable.min(self.payable)
    }

    // E*: "lent minus received, not below 0, over the set if netting is marked, else summed trade by trade"
    pub fn excess(self, netting: bool) -> u64
        ensures { (result ≡ excess_in netting self) × (result ≤ self.lent + self.excess) }
    {
        let over_the_set = self.lent.saturating_sub(self.received);
        chosen(netting, over_the_set, self.excess)
    }
}

// What a set brings by its tally and its head word: "12: asset − securities. 13: −cash netted. 14: E* of principal sets. 15: E* of agent
// sets, plus all value lent with bit 2."
#[tactic(auto, unfolding(crate::specs::Weighing::set_sums))]
pub fn set_sums(t: FinancingTally, w: u32) -> Sums
    requires { TallyFits t }
    ensures { result ≡ set_sums t w }
{
    let excess = 1000 * t.excess(bit(w, payloads::FINANCING_NETTING));
    let lent = 1000 * t.lent;
    let agent = bit(w, payloads::FINANCING_AGENT);
    Sums {
        financed: 1000 * t.assets,
        netted: 1000 * t.netted(),
        principal: chosen(agent, 0, excess),
        agent: chosen(agent, excess, 0) + chosen(bit(w, payloads::FINANCING_FURTHER), lent, 0),
        ..Sums::default()
    }
}

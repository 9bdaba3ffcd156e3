// The trades of a financing set, one after the other from behind its head.
ghost use Rattle.std.specs.Prelude.{◌≡◌};
ghost use Rattle.rules.specs.Word.{kind_of, word};
ghost use Rattle.records.specs.Readable.{Readable};
ghost use Rattle.financing.specs.Weighing.{no_tally, trades_of, weighed_in, weighed_of};

use crate::faults::check_trade_at;
use crate::good::{LARGEST, good_trade};
use crate::read::financing_trade_words;
use crate::tally::FinancingTally;
use records::presence::standing;
use records::record::at_place;
use rules::causes::Refusal;
use rules::kinds::Kind;
use rules::{amounts, lengths, payloads};
use words::parts::bit;

// What the trades of a set come to: their tally and the place behind them. The day of the tally is that of the trade before, and 0 behind the
// head. A `while`, since the run ends at a word and not after a count. `most` is what one of a trade's first four amounts may be at most: "in an agent set the first four are 0".
pub fn weigh(part: &[u32]) -> Result<(FinancingTally, usize), Refusal>
    requires { Readable 1 part.now × (kind_of (word part.now 0) ≡ 8) }
    ensures { weighed_in result ≡ weighed_of no_tally (trades_of part.now) }
{
    let agent = bit(part[0], payloads::FINANCING_AGENT);
    let most = LARGEST * (1 - u32::from(agent));
    let end = part.len().saturating_sub(amounts::FINANCING_TRADE);
    let mut t = FinancingTally::default();
    let mut at = lengths::FINANCING_SET;
    while good_trade(part, at, end, most, t.day) {
        t = t.add(financing_trade_words(part, at));
        at += lengths::FINANCING_TRADE;
    }
    if standing(part, at, Kind::FinancingTrade) {
        at_place(check_trade_at(part, at, agent, t.day), at)?;
    }
    Ok((t, at))
}

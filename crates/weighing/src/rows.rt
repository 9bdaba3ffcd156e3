// What a derivative set puts into the rows 1 and 4 to 10.
ghost use Rattle.std.specs.Prelude.{◌≡◌, ◌+◌, ◌-◌, ◌^◌, ◌≤◌, ◌<◌};
ghost use Rattle.rules.specs.Weigh.{margin_offsets};
ghost use Rattle.weighing.specs.Gathered.{TallyFits, replaced_by, set_sums, weighted_by};
ghost use Rattle.weighing.specs.Words.{set_of};

use crate::read::SetWords;
use crate::tally::Tally;
use rules::{Sums, payloads};
use weights::addon::weighted;
use words::amount::size;
use words::numbers::chosen;
use words::parts::{bit, field};

impl SetWords {
    // "bits 0 to 4 are all 1": cash margin counts as payment.
    #[tactic(auto, using(crate::proofs::Truth::five_bits), unfolding(rules::specs::Read::derivative_set_at))]
    fn margin_counts(self) -> bool
        ensures { result ≡ margin_offsets (set_of self) }
    {
        field(self.head, payloads::MARGIN, payloads::MARGIN_BITS) == payloads::MARGIN_ALL
    }
}

impl Tally {
    // "Netting marked: replacement is N"; less what margin was received, where it counts. "Not marked: replacement G".
    #[tactic(auto, unfolding(crate::specs::Gathered::replaced_by))]
    fn replacement(self, netting: bool, margin: u64) -> u64
        requires { self.losses + margin < 2 ^ 64 }
        ensures { (result ≡ replaced_by netting self.gains (self.losses + margin)) × (result ≤ self.gains) }
    {
        if netting {
            return self.gains.saturating_sub(self.losses + margin);
        }
        self.gains
    }

    // "Margin never enters N or G here. Not marked: ... add-on X".
    #[tactic(auto, using(rules::proofs::Weighted::at_most), unfolding(crate::specs::Gathered::weighted_by))]
    fn weighted(self, netting: bool, x: u64) -> u64
        requires { self.gains < 2 ^ 59 }
        ensures { (result ≡ weighted_by netting self.gains self.losses x) × (result ≤ x) }
    {
        if netting {
            return weighted(x, self.gains, self.losses);
        }
        x
    }

    // The weighted add-on less what is uncovered, where the whole is known: in a set without uncovered credits they are the same.
    #[tactic(auto, using(crate::proofs::SetRows::weighted_less))]
    fn weighted_rest(self, netting: bool, whole: u64) -> u64
        requires { (self.gains < 2 ^ 59) × ((self.uncovered ≤ self.gross) × (whole ≡ weighted_by netting self.gains self.losses self.gross)) }
        ensures { (result ≡ weighted_by netting self.gains self.losses (self.gross - self.uncovered)) × (result ≤ whole) }
    {
        if self.uncovered == 0 {
            return whole;
        }
        self.weighted(netting, self.gross - self.uncovered)
    }
}

// What a set of these words brings that has gathered this tally.
#[tactic(auto, using(crate::proofs::SetRows::margin_off), unfolding(rules::specs::Read::derivative_set_at, rules::specs::Weigh::replacement_of, rules::specs::Weigh::weighted_in, crate::specs::Gathered::replaced_by, crate::specs::Gathered::weighted_by))]
pub fn set_sums(d: SetWords, t: Tally) -> Sums
    requires { TallyFits t }
    ensures { result ≡ set_sums (set_of d) t }
{
    let netting = bit(d.head, payloads::SET_NETTING);
    let counts = d.margin_counts();
    let margin = chosen(counts, u64::from(size(d.received)), 0);
    let replaced = 1000 * t.replacement(netting, margin);
    let gross = t.weighted(netting, t.gross);
    let kept = t.weighted_rest(netting, gross);
    let cash_paid = 1000 * u64::from(size(d.paid));
    Sums {
        assets: cash_paid,
        replacement: replaced,
        weighted: gross,
        posted: 1000 * u64::from(size(d.posted)),
        offset: chosen(counts, cash_paid, 0),
        exempt: chosen(bit(d.head, payloads::SET_EXEMPT), replaced + kept, 0),
        written: 1000 * t.written,
        covered: 1000 * t.covered + (gross - kept),
        ..Sums::default()
    }
}

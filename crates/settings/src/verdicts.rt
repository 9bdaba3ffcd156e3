// How many settings lead to each verdict.
ghost use Rattle.std.specs.Prelude.{◌≡◌, List};
ghost use Rattle.rules.specs.declared.Entry as entry;
ghost use Rattle.settings.specs.Settings.{counts_of, verdict_with, with_counts};
ghost use Rattle.settings.specs.Pieces.{AllFit, verdict_by};
ghost use Rattle.settings.specs.Chosen.{ChosenSet, SomeChosen};

use crate::Counts;
use crate::exposure::{Pieces, exposed, pieces_of};
use crate::members::tally_of;
use calendar::bands_of_date;
use heads::head::tier1;
use records::presence::word_at;
use records::record::Record;
use rules::verdicts::Verdict;
use rules::{Sums, Tier1, payloads};
use template::exposure::exposure;
use template::ratio::verdict;
use weighing::read::SetWords;

// "all 64 settings": the payloads of a derivative set's head that have no bit without a meaning.
const SETTINGS: u32 = payloads::DERIVATIVE_SET_END;

// Where the reporting date stands.
const DATE: usize = 2;

// Of a set of these pieces, where the other items add so much to row 21, with this Tier 1.
fn count_each(p: Pieces, others: u64, tier1: Tier1) -> Counts
    requires { AllFit p others }
    ensures { with_counts result ≡ counts_of (verdict_by p others tier1.gain tier1.loss) }
{
    let mut counts = Counts::default();
    for m in 0..SETTINGS {
        match verdict(tier1, others + exposed(p, m)) {
            Verdict::Met => counts.met += 1,
            Verdict::Missed => counts.missed += 1,
            Verdict::NoExposure => counts.no_exposure += 1,
        }
    }
    counts
}

// Of the derivative set whose head stands at a place of an accepted book with these sums. The date's bands are asked of the calendar: a second caller of
// `bands_of` would keep it apart from the reading, which would be slower for it (docs/BENCHMARKS.md, A.12).
pub fn count_settings(book: &[u32], head: usize, sums: Sums) -> Counts
    requires { SomeChosen book.now sums head }
    ensures { (register : List entry.Entry) → ChosenSet book.now register sums head → with_counts result ≡ counts_of (verdict_with book.now register head) }
{
    let part = &book[head..];
    let d = SetWords::read(part, 0);
    let t = tally_of(part, bands_of_date(word_at(book, DATE)));
    let p = pieces_of(d, t);
    let others = exposure(sums) - exposed(p, d.head);
    count_each(p, others, tier1(book))
}

// Kind 1, the head, with its Tier 1 and its reporting date.
ghost use Rattle.std.specs.Prelude.{◌≡◌, ◌≤◌};
ghost use Rattle.rules.specs.Calendar.{last_date};
ghost use Rattle.rules.specs.Read.{head_faulty, date_faulty, reporting_date, head_of};

use calendar::bands_of_date;
use records::presence::word_at;
use rules::kinds::Kind;
use rules::{Bands, Tier1, limits};
use words::amount::{gain, loss, minus_zero};
use words::parts::{is_kind, payload};

// "A book under three words", "no good head word or Tier 1 word".
#[tactic(auto, unfolding(rules::specs::Read::head_faulty))]
pub fn head_faulty(book: &[u32]) -> bool
    ensures { result ≡ head_faulty book.now }
{
    let [head, tier1, _, ..] = book else {
        return true;
    };
    let bad_head = !is_kind(*head, Kind::Head) | (payload(*head) > limits::PROTECTIONS);
    bad_head | !is_kind(*tier1, Kind::Amount) | minus_zero(*tier1)
}

// "A date out of range, or not a good amount". As numbers, negative amounts and words of every other kind are above the last date.
#[tactic(auto, using(crate::proofs::DateLaws::faulty_is))]
pub fn date_faulty(book: &[u32]) -> bool
    ensures { result ≡ date_faulty book.now }
{
    let date = word_at(book, 2);
    date > limits::LAST_DATE
}

// A word that is no good date reads as 0, so that every book has a date.
#[tactic(auto, using(crate::proofs::DateLaws::faulty_date, crate::proofs::DateLaws::good_date, crate::proofs::DateLaws::good_within))]
fn reporting_date(book: &[u32]) -> u32
    ensures { (result ≡ reporting_date book.now) × (result ≤ last_date) }
{
    if date_faulty(book) {
        return 0;
    }
    word_at(book, 2)
}

// Words that are not there are 0, so that every book has a head. First b, how many bought protections there are.
#[tactic(auto, unfolding(rules::specs::Read::head_of))]
pub fn protections_of(book: &[u32]) -> usize
    ensures { result ≡ (head_of book.now).protections }
{
    payload(word_at(book, 0)) as usize
}

// Tier 1 is a gain less a loss, one of which is 0.
#[tactic(auto, unfolding(rules::specs::Read::head_of))]
pub fn tier1(book: &[u32]) -> Tier1
    ensures { (result.gain ≡ (head_of book.now).gain) × (result.loss ≡ (head_of book.now).loss) }
{
    let w = word_at(book, 1);
    Tier1 {
        gain: gain(w),
        loss: loss(w),
    }
}

// The bands that the book's factors go by: worked out once for a book, where its reading begins.
#[tactic(auto, unfolding(rules::specs::Read::head_of))]
pub fn bands_of(book: &[u32]) -> Bands
    ensures { result ≡ (head_of book.now).bands }
{
    bands_of_date(reporting_date(book))
}

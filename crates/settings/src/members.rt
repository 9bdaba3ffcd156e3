// The members of a derivative set that was read without a fault, weighed once more from its words: no cause is asked for, and no cover is drawn.
ghost use Rattle.std.specs.Prelude.{◌≡◌, ◌+◌, ◌≤◌};
ghost use Rattle.rules.specs.Word.{size_of, word};
ghost use Rattle.records.specs.Readable.{Readable};
ghost use Rattle.baskets.specs.Reading.{basket_cause};
ghost use Rattle.weighing.specs.Gathered.{TallyRoomy};
ghost use Rattle.settings.specs.Members.{from_head, Moved, SureCovers, SureMembers, after_basket, after_credit, after_trade, covered_from, covers_from, tally_from};

use baskets::basket_at;
use figures::factors::FactorTable;
use records::presence::standing;
use records::record::Record;
use rules::kinds::Kind;
use rules::{Bands, lengths};
use weighing::read::{CoverWords, TradeWords, WrittenWords};
use weighing::tally::Tally;
use words::amount::size;

// What the members before a place come to, and that place, which counts from the set's head.
#[derive(Clone, Copy)]
pub struct Upto {
    pub tally: Tally,
    pub at: usize,
}

// What covers come to, and the place behind the last.
#[derive(Clone, Copy)]
pub struct Covers {
    pub amount: u64,
    pub next: usize,
}

// A `while`, since covers end at a word and not after a count.
fn covers_from(part: &[u32], from: usize) -> Covers
    requires { SureCovers part.now from }
    ensures { (result.amount ≡ covered_from part.now from) × (result.next ≡ (covers_from part.now from).place) }
{
    let mut amount = 0u64;
    let mut at = from;
    while standing(part, at, Kind::Cover) {
        let c = CoverWords::read(part, at);
        amount += u64::from(size(c.amount));
        at += lengths::COVER;
    }
    Covers { amount, next: at }
}

// Kind 5.
fn with_trade(part: &[u32], u: Upto, bands: Bands, figures: &FactorTable) -> Upto
    requires { Readable (u.at + 5) part.now × TallyRoomy u.tally }
    ensures { result ≡ after_trade bands part.now u }
{
    let at = u.at;
    let t = u.tally;
    Upto {
        tally: t.add_trade(figures, bands, TradeWords::read(part, at)),
        at: at + lengths::TRADE,
    }
}

// Kind 6, with its covers.
fn with_credit(part: &[u32], u: Upto) -> Upto
    requires { (Readable (u.at + 6) part.now × TallyRoomy u.tally)
        × ((size_of (word part.now (u.at + 3)) ≤ size_of (word part.now (u.at + 2))) × SureCovers part.now (u.at + 6)) }
    ensures { result ≡ after_credit part.now u }
{
    let at = u.at;
    let t = u.tally;
    let covers = covers_from(part, at + lengths::WRITTEN_CREDIT);
    Upto {
        tally: t.add_written(WrittenWords::read(part, at), covers.amount),
        at: covers.next,
    }
}

// Kind 11. A basket without a fault is never refused.
fn with_basket(part: &[u32], u: Upto) -> Upto
    requires { (Readable (u.at + 1) part.now × TallyRoomy u.tally) × (basket_cause part.now u.at ≡ 0) }
    ensures { result ≡ after_basket part.now u }
{
    let at = u.at;
    let t = u.tally;
    let Ok(b) = basket_at(part, at) else {
        return u;
    };
    Upto {
        tally: t.add_basket(b.value, b.add_on),
        at: b.next,
    }
}

// The tally with a member more, if one stands there.
fn next_member(part: &[u32], u: Upto, bands: Bands, figures: &FactorTable) -> Option<Upto>
    requires { SureMembers bands part.now u }
    ensures { Moved bands part.now u result }
{
    let at = u.at;
    if standing(part, at, Kind::Trade) {
        return Some(with_trade(part, u, bands, figures));
    }
    if standing(part, at, Kind::WrittenCredit) {
        return Some(with_credit(part, u));
    }
    if standing(part, at, Kind::Basket) {
        return Some(with_basket(part, u));
    }
    None
}

// What all members of a set come to. The words begin with its head.
pub fn tally_of(part: &[u32], bands: Bands) -> Tally
    requires { SureMembers bands part.now from_head }
    ensures { result ≡ tally_from bands part.now from_head }
{
    let figures = FactorTable::new();
    let mut u = Upto {
        tally: Tally::default(),
        at: lengths::DERIVATIVE_SET,
    };
    while let Some(next) = next_member(part, u, bands, &figures) {
        u = next;
    }
    u.tally
}

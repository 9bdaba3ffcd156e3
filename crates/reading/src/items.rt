// What stands where an item is due, behind the protections.
ghost use Rattle.std.specs.Prelude.{◌≡◌, true, suc};
ghost use Rattle.rules.specs.declared.Sums as sums;
ghost use Rattle.rules.specs.Numbers.{fault_in};
ghost use Rattle.rules.specs.Read.{end_fault, stands};
ghost use Rattle.records.specs.Readable.{Readable};
ghost use Rattle.reading.specs.Steps.{SumsUpTo};
ghost use Rattle.reading.specs.Ahead.{AnswersItem};

use crate::runs::{assets, off_balance_items};
use financing::financing_set;
use records::presence::standing;
use records::record::{at_place, check_at};
use records::sums::plus;
use rules::Sums;
use rules::causes::{Cause, Refusal};
use rules::kinds::Kind;
use weighing::read::SetWords;
use words::causes::refuse_if;
use words::parts::payload;

// Some items, with the sums that have them and the place behind them; the head of a derivative set; or the end word.
#[derive(Clone, Copy)]
pub enum ItemAnswer {
    More(Sums, usize),
    Set,
    End,
}

// "Kinds 2, 4, 8, 10 come in any order after the protections"; any other but the end is 5.
pub fn item_at(book: &[u32], at: usize, s: Sums) -> Result<ItemAnswer, Refusal>
    requires { SumsUpTo book.now s at }
    ensures { AnswersItem book.now s at result }
{
    if book.len() <= at {
        return Err(Refusal {
            cause: Cause::EndFaulty,
            place: book.len(),
        });
    }
    if standing(book, at, Kind::Asset) {
        return assets(book, at, s);
    }
    if standing(book, at, Kind::DerivativeSet) {
        return set_at(book, at);
    }
    if standing(book, at, Kind::FinancingSet) {
        return financing_at(book, at, s);
    }
    if standing(book, at, Kind::OffBalance) {
        return off_balance_items(book, at, s);
    }
    if standing(book, at, Kind::End) {
        return end_at(book, at);
    }
    Err(Refusal {
        cause: Cause::KindNotAllowed,
        place: at,
    })
}

// Kind 4, of which the head is read.
fn set_at(book: &[u32], at: usize) -> Result<ItemAnswer, Refusal>
    requires { Readable at book.now × (stands 4 book.now at ≡ true) }
    ensures { (s : sums.Sums) → SumsUpTo book.now s at → AnswersItem book.now s at result }
{
    at_place(check_at::<SetWords>(&book[at..], 0), at)?;
    Ok(ItemAnswer::Set)
}

// Kind 8, with its trades.
fn financing_at(book: &[u32], at: usize, s: Sums) -> Result<ItemAnswer, Refusal>
    requires { SumsUpTo book.now s at × (stands 8 book.now at ≡ true) }
    ensures { AnswersItem book.now s at result }
{
    match financing_set(&book[at..]) {
        Ok((more, next)) => Ok(ItemAnswer::More(plus(s, more), at + next)),
        Err(r) => Err(Refusal {
            cause: r.cause,
            place: at + r.place,
        }),
    }
}

// Kind 15.
fn end_at(book: &[u32], at: usize) -> Result<ItemAnswer, Refusal>
    requires { Readable at book.now × (stands 15 book.now at ≡ true) }
    ensures { (s : sums.Sums) → SumsUpTo book.now s at → AnswersItem book.now s at result }
{
    at_place(check_end(book, at), at)?;
    Ok(ItemAnswer::End)
}

// "payload is the count of words before it; nothing follows"
#[tactic(auto, unfolding(rules::specs::Faults::cause, rules::specs::Read::end_fault))]
fn check_end(book: &[u32], at: usize) -> Result<(), Cause>
    requires { Readable (suc at) book.now }
    ensures { fault_in result ≡ end_fault book.now at }
{
    let miscounted = payload(book[at]) as usize != at;
    let followed = book.len() != at + 1;
    refuse_if(miscounted | followed, Cause::EndFaulty)
}

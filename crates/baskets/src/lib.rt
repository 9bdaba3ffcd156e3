// Baskets that pay at the n-th default among their names (request A.3), kind 11 of a derivative set.
#![tactic(auto)]

ghost use Rattle.std.specs.Prelude.{◌≡◌, suc};
ghost use Rattle.records.specs.Readable.{Readable};
ghost use Rattle.baskets.specs.Reading.{basket_read, read_in};

use crate::read::{basket_words, names_in};
use rules::causes::Cause;
use rules::lengths;

mod addon;
mod faults;
mod grades;
mod read;

// What a basket brings to its set, and the place behind it.
#[derive(Clone, Copy, Debug, PartialEq, Eq)]
pub struct Basket {
    pub value: u32,
    pub add_on: u64,
    pub next: usize,
}

// The basket at a place, by as many names as its word says.
pub fn basket_at(part: &[u32], at: usize) -> Result<Basket, Cause>
    requires { Readable (suc at) part.now }
    ensures { read_in result ≡ basket_read part.now at }
{
    let names = names_in(part[at]);
    let next = at + lengths::BASKET + names;
    if part.len() < next {
        return Err(Cause::WordsLacking);
    }
    let b = basket_words(part, at);
    b.check()?;
    Ok(Basket {
        value: b.value,
        add_on: b.add_on(),
        next,
    })
}

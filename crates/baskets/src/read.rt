// The words of a basket, with what its grades come to.
ghost use Rattle.std.specs.Prelude.{◌≡◌, ◌+◌};
ghost use Rattle.rules.specs.Word.{names_in, word};
ghost use Rattle.records.specs.Readable.{Readable};
ghost use Rattle.baskets.specs.Words.{basket_words};

use crate::grades::{Grades, counted, looked_at};
use rules::{lengths, payloads};
use words::parts::field;

#[derive(Clone, Copy)]
pub struct BasketWords {
    pub head: u32,
    pub value: u32,
    pub notional: u32,
    pub all: u32,
    pub failing: u32,
}

// "bits 6-11 the count m of names", 0 to 63 as written.
pub fn names_in(head: u32) -> usize
    ensures { result ≡ names_in head }
{
    field(head, payloads::BASKET_NAMES, payloads::BASKET_NAMES_BITS) as usize
}

// The basket at a place, all of whose words are there. Words behind it may be looked at, and change nothing.
#[tactic(auto, using(crate::proofs::Gathering::gathering_next))]
pub fn basket_words(part: &[u32], at: usize) -> BasketWords
    requires { Readable (at + (names_in (word part.now at) + 3)) part.now }
    ensures { result ≡ basket_words part.now at }
{
    let head = part[at];
    let begin = at + lengths::BASKET;
    let names = names_in(head);
    let end = begin + looked_at(names, part.len() - begin);
    let words = &part[begin..end];
    let mut g = Grades::default();
    for (i, w) in words.iter().enumerate() {
        g = g.with(counted(*w, i, names));
    }
    BasketWords {
        head,
        value: part[at + 1],
        notional: part[at + 2],
        all: g.all,
        failing: g.failing,
    }
}

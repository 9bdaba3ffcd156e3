// The members of a derivative set, one after the other, up to the next cover.
ghost use Rattle.std.specs.Prelude.{◌≡◌, ◌+◌, ◌≤◌, ◌^◌, cond, length, None};
ghost use Rattle.rules.specs.Read.{stands};
ghost use Rattle.derivatives.specs.Ahead.{SoundSet, SoundStretch, SoundWeighed, new_set, set_ahead, stretch_ahead, weighed_ahead};

use crate::covers::OpenCredit;
use crate::members::{MemberStep, basket, member};
use records::presence::standing;
use rules::causes::Refusal;
use rules::kinds::Kind;
use rules::{Bands, Draw, lengths};
use weighing::tally::Tally;

// A set that is being read: the place of its next member or cover, what its members so far come to, and the written credit whose
// covers may follow, if there is one, which is not in the tally yet. Places count from the set's head.
#[derive(Clone, Copy)]
pub struct OpenSet {
    pub at: usize,
    pub tally: Tally,
    pub credit: Option<OpenCredit>,
}

// The next cover of a set, or of a stretch of trades and written credits in it, and the set behind it; or what all the members come to and the
// place behind them.
#[derive(Clone, Copy)]
pub enum Weighed {
    Cover(Draw, OpenSet),
    Whole(Tally, usize),
}

impl OpenSet {
    // A set whose head was read: its members stand behind its three amounts.
    pub fn new() -> OpenSet
        ensures { result ≡ new_set }
    {
        OpenSet {
            at: lengths::DERIVATIVE_SET,
            tally: Tally::default(),
            credit: None,
        }
    }

    // "7 cover, after a 6 or its covers": the credit of the cover that stands at the place.
    pub fn cover_due(self, part: &[u32]) -> Option<OpenCredit>
        ensures { result ≡ cond (stands 7 part.now self.at) self.credit None }
    {
        if standing(part, self.at, Kind::Cover) {
            self.credit
        } else {
            None
        }
    }
}

// Trades and written credits one after the other, up to the next cover or to a place where neither stands.
fn weigh_stretch(
    part: &[u32],
    begin: usize,
    from: OpenSet,
    bands: Bands,
) -> Result<Weighed, Refusal>
    requires { SoundSet part.now from × (begin + length part.now ≤ 2 ^ 20) }
    ensures { (set_ahead bands part.now begin from ≡ stretch_ahead bands part.now begin result)
        × SoundStretch part.now from.at result }
{
    let mut o = from;
    loop {
        match member(part, begin, o, bands)? {
            MemberStep::Next(next) => {
                o = next;
            }
            MemberStep::Cover(draw, next) => {
                return Ok(Weighed::Cover(draw, next));
            }
            MemberStep::End(t) => {
                return Ok(Weighed::Whole(t, o.at));
            }
        }
    }
}

// The words of a set from its head on, which stands at a place of the book. Baskets are taken between the stretches, so that the loop over
// trades and written credits is as short as without them.
pub fn weigh(part: &[u32], begin: usize, from: OpenSet, bands: Bands) -> Result<Weighed, Refusal>
    requires { SoundSet part.now from × (begin + length part.now ≤ 2 ^ 20) }
    ensures { (set_ahead bands part.now begin from ≡ weighed_ahead bands part.now begin result)
        × SoundWeighed part.now result }
{
    let mut o = from;
    loop {
        match weigh_stretch(part, begin, o, bands)? {
            Weighed::Cover(draw, next) => {
                return Ok(Weighed::Cover(draw, next));
            }
            Weighed::Whole(t, at) => match basket(part, at, t)? {
                Some(next) => {
                    o = next;
                }
                None => {
                    return Ok(Weighed::Whole(t, at));
                }
            },
        }
    }
}

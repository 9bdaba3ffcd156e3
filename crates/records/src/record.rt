// A record by its words: how many amounts follow its head word, how its words are read and for which causes they are faulty.
ghost use Rattle.std.specs.Prelude.{◌≡◌, ℕ, suc, ◌+◌, ◌-◌, ◌^◌, ◌≤◌, ◌<◌, Bool, List, length, MatchResult};
ghost use Rattle.rules.specs.Numbers.{cause_number, fault_in, kind_number};
ghost use Rattle.rules.specs.declared.kinds.Kind.{Kind};
ghost use Rattle.records.specs.Cause.{record_cause, sound_record};
ghost use Rattle.records.specs.Readable.{Readable};

use crate::presence::lacking;
use rules::causes::{Cause, Refusal};
use rules::kinds::Kind;
use words::causes::refuse_if;

pub trait Record: Copy {
    const AMOUNTS: usize;

    ghost AMOUNTS: { ℕ };

    // The words of the record at a place.
    ghost words_at: { List ℕ → ℕ → Self };

    // The first of the causes from 7 on that fits them.
    ghost fault: { Self → ℕ };

    fn read(part: &[u32], at: usize) -> Self
        requires { Readable (at + suc AMOUNTS) part.now }
        ensures { result ≡ words_at part.now at };

    fn check(self) -> Result<(), Cause>
        ensures { fault_in result ≡ fault self };

    ghost some_amounts: { 0 < AMOUNTS };

    ghost few_amounts: { AMOUNTS ≤ 16 };
}

// A record of which few tests of its whole words tell that it has no fault.
pub trait Good: Record {
    const KIND: Kind;

    // What the tests look up.
    type Table;

    ghost KIND: { Kind };

    ghost good: { Self → Bool };

    fn is_good(self, table: &Self::Table) -> bool
        ensures { result ≡ good self };

    // Where all its words are there, they tell whether such a record stands at a place and no cause fits it.
    ghost good_is: { (ws : List ℕ) (at : ℕ) → at + Self.AMOUNTS < length ws
        → good (Self.words_at ws at) ≡ sound_record (kind_number KIND) Self.AMOUNTS ws at (Self.fault (Self.words_at ws at)) };
}

// A record without a fault stands at a place. Its words are all there before `end`, which is the length less its amounts.
#[tactic(auto, using(crate::proofs::Words::none_there))]
pub fn good_at<R: Good>(part: &[u32], at: usize, end: usize, table: &R::Table) -> bool
    requires { (length part.now ≤ 2 ^ 20) × (end ≡ length part.now - R.AMOUNTS) }
    ensures { result ≡ sound_record (kind_number R.KIND) R.AMOUNTS part.now at (R.fault (R.words_at part.now at)) }
{
    if end <= at {
        return false;
    }
    R::read(part, at).is_good(table)
}

// The record at a place: "too few words, or an amount not of kind 0", else what its words come to.
#[tactic(auto, unfolding(rules::specs::Faults::cause), using(crate::proofs::Words::whole))]
pub fn check_at<R: Record>(part: &[u32], at: usize) -> Result<(), Cause>
    requires { Readable (suc at) part.now }
    ensures { fault_in result ≡ record_cause R.AMOUNTS part.now at (R.fault (R.words_at part.now at)) }
{
    refuse_if(lacking(part, at, R::AMOUNTS), Cause::WordsLacking)?;
    R::read(part, at).check()
}

// A cause that was found is that of the record at a place.
pub fn at_place(checked: Result<(), Cause>, place: usize) -> Result<(), Refusal>
    ensures { MatchResult result
        (λ _. fault_in checked ≡ 0)
        (λ r. (cause_number r.cause ≡ fault_in checked) × (r.place ≡ place)) }
{
    checked.map_err(|cause| Refusal { cause, place })
}

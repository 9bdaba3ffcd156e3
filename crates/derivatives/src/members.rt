// The members of a derivative set: trades, written credits with their covers, and baskets. The part, the place and the tally stay parameters: a struct of
// them would owe its fact at every turn of the loops.
ghost use Rattle.std.specs.Prelude.{◌≡◌, true, ◌+◌, ◌≤◌, ◌^◌, length, Some};
ghost use Rattle.rules.specs.declared.Bands as bands;
ghost use Rattle.rules.specs.Read.{stands};
ghost use Rattle.derivatives.specs.Ahead.{BasketTaken, MemberRead, SoundSet, SoundStep, Standing, closed_tally, from_cover, set_ahead, step_ahead};

use crate::covers::OpenCredit;
use crate::set::OpenSet;
use crate::trades::trades;
use baskets::basket_at;
use records::presence::standing;
use records::record::Record;
use rules::causes::Refusal;
use rules::kinds::Kind;
use rules::{Bands, Draw, lengths};
use weighing::good::fault_at;
use weighing::read::{CoverWords, TradeWords, WrittenWords};
use weighing::tally::Tally;
use words::amount::size;
use words::parts::is_kind;

// The set with one member more; the next cover, and the set behind it; or neither a trade nor a written credit, and the tally of all before.
#[derive(Clone, Copy)]
pub enum MemberStep {
    Next(OpenSet),
    Cover(Draw, OpenSet),
    End(Tally),
}

// Where a credit is open its covers come first; any other record closes it.
pub fn member(part: &[u32], begin: usize, o: OpenSet, bands: Bands) -> Result<MemberStep, Refusal>
    requires { SoundSet part.now o × (begin + length part.now ≤ 2 ^ 20) }
    ensures { (set_ahead bands part.now begin o ≡ step_ahead bands part.now begin o.at result)
        × SoundStep part.now o.at result }
{
    if let Some(credit) = o.cover_due(part) {
        return cover(part, begin, o, credit);
    }
    member_at(part, o.at, closed(part, o), bands)
}

// Kind 7. The set begins at a place of the book.
fn cover(part: &[u32], begin: usize, o: OpenSet, credit: OpenCredit) -> Result<MemberStep, Refusal>
    requires { (SoundSet part.now o × (begin + length part.now ≤ 2 ^ 20)) × ((o.credit ≡ Some credit) × (stands 7 part.now o.at ≡ true)) }
    ensures { ((bands : bands.Bands) → from_cover bands part.now begin o.tally credit o.at ≡ step_ahead bands part.now begin o.at result)
        × SoundStep part.now o.at result }
{
    let at = o.at;
    fault_at::<CoverWords>(part, at)?;
    let draw = credit.draw(
        WrittenWords::read(part, credit.place),
        CoverWords::read(part, at),
        begin + at,
    );
    let next = OpenSet {
        at: at + lengths::COVER,
        tally: o.tally,
        credit: Some(credit.with_cover(draw.amount)),
    };
    Ok(MemberStep::Cover(draw, next))
}

// The tally with the open credit in it, now that its covers are over.
#[tactic(auto, using(crate::proofs::Covering::closed_open), unfolding(crate::specs::Ahead::closed_tally))]
fn closed(part: &[u32], o: OpenSet) -> Tally
    requires { SoundSet part.now o }
    ensures { result ≡ closed_tally part.now o }
{
    match o.credit {
        Some(credit) => o
            .tally
            .add_written(WrittenWords::read(part, credit.place), credit.covered),
        None => o.tally,
    }
}

// What stands where a trade or a written credit is due.
fn member_at(part: &[u32], at: usize, t: Tally, bands: Bands) -> Result<MemberStep, Refusal>
    requires { Standing part.now at t }
    ensures { MemberRead bands part.now at t result }
{
    // In this order since each trade came through here, when netted sets took 4% longer the other way round (docs/BENCHMARKS.md, A.1).
    if standing(part, at, Kind::WrittenCredit) {
        return written(part, at, t);
    }
    if standing(part, at, Kind::Trade) {
        return trade(part, at, t, bands);
    }
    Ok(MemberStep::End(t))
}

// Kind 5, which mostly stands in runs. Where the run does not move, its first trade has a fault.
fn trade(part: &[u32], at: usize, t: Tally, bands: Bands) -> Result<MemberStep, Refusal>
    requires { Standing part.now at t × (stands 5 part.now at ≡ true) }
    ensures { MemberRead bands part.now at t result }
{
    let run = trades(part, at, t, bands);
    if run.next == at {
        return Err(fault_at::<TradeWords>(part, at).unwrap_err());
    }
    Ok(MemberStep::Next(OpenSet {
        at: run.next,
        tally: run.tally,
        credit: None,
    }))
}

// Kind 6, which opens; its covers are read one by one. A written credit's factor goes by its reference, so no band decides here.
fn written(part: &[u32], at: usize, t: Tally) -> Result<MemberStep, Refusal>
    requires { Standing part.now at t × (stands 6 part.now at ≡ true) }
    ensures { (bands : bands.Bands) → MemberRead bands part.now at t result }
{
    fault_at::<WrittenWords>(part, at)?;
    let w = WrittenWords::read(part, at);
    let credit = OpenCredit {
        place: at,
        covered: 0,
        room: size(w.notional) - size(w.loss_taken),
    };
    Ok(MemberStep::Next(OpenSet {
        at: at + lengths::WRITTEN_CREDIT,
        tally: t,
        credit: Some(credit),
    }))
}

// The set with a basket more, if one stands there. Kind 11, which no cover follows and whose factor no band decides.
pub fn basket(part: &[u32], at: usize, t: Tally) -> Result<Option<OpenSet>, Refusal>
    requires { Standing part.now at t }
    ensures { BasketTaken part.now at t result }
{
    if !standing(part, at, Kind::Basket) {
        return Ok(None);
    }
    match basket_at(part, at) {
        Ok(b) => Ok(Some(OpenSet {
            at: b.next,
            tally: t.add_basket(b.value, b.add_on),
            credit: None,
        })),
        Err(cause) => Err(Refusal { cause, place: at }),
    }
}

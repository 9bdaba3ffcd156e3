// One step of the reading: the protections, what stands where an item is due, or the members of a derivative set up to the next cover.
ghost use Rattle.std.specs.Prelude.{◌≡◌};
ghost use Rattle.reading.specs.declared.cursor.Stage.TheVariants as stage;
ghost use Rattle.reading.specs.Ahead.{Sound, SoundStep, ahead, step_ahead};

use crate::cursor::{Cursor, Stage};
use crate::items::{ItemAnswer, item_at};
use crate::protections::read_protections;
use derivatives::set::{OpenSet, Weighed, weigh};
use heads::head::protections_of;
use records::record::Record;
use records::sums::plus;
use rules::causes::Refusal;
use rules::{Draw, Sums};
use weighing::read::SetWords;
use weighing::rows::set_sums;

// The cursor further on; the next cover, and the cursor behind it; or the sums of the whole book.
#[derive(Clone, Copy)]
pub enum Step {
    On(Cursor),
    Cover(Draw, Cursor),
    Over(Sums),
}

pub fn next_step(book: &[u32], c: Cursor) -> Result<Step, Refusal>
    requires { Sound book.now c }
    ensures { (ahead book.now c ≡ step_ahead book.now result) × SoundStep book.now c result }
{
    match c.stage {
        Stage::Protections => protections_step(book, c),
        Stage::Items => item_step(book, c),
        Stage::Set(set) => set_step(book, c, set),
    }
}

// "exactly b of them after the head"
fn protections_step(book: &[u32], c: Cursor) -> Result<Step, Refusal>
    requires { Sound book.now c × (c.stage ≡ stage.Protections) }
    ensures { (ahead book.now c ≡ step_ahead book.now result) × SoundStep book.now c result }
{
    let bands = c.bands;
    let at = read_protections(book, protections_of(book))?;
    Ok(Step::On(Cursor {
        stage: Stage::Items,
        at,
        sums: Sums::default(),
        bands,
    }))
}

// The set is read on its part of the book, from its head on.
fn set_step(book: &[u32], c: Cursor, set: OpenSet) -> Result<Step, Refusal>
    requires { Sound book.now c × (c.stage ≡ stage.Set set) }
    ensures { (ahead book.now c ≡ step_ahead book.now result) × SoundStep book.now c result }
{
    let bands = c.bands;
    let at = c.at;
    let sums = c.sums;
    let part = &book[at..];
    match weigh(part, at, set, bands) {
        Ok(Weighed::Cover(draw, next)) => Ok(Step::Cover(
            draw,
            Cursor {
                stage: Stage::Set(next),
                at,
                sums,
                bands,
            },
        )),
        Ok(Weighed::Whole(t, place)) => Ok(Step::On(Cursor {
            stage: Stage::Items,
            at: at + place,
            sums: plus(sums, set_sums(SetWords::read(part, 0), t)),
            bands,
        })),
        Err(r) => Err(Refusal {
            cause: r.cause,
            place: at + r.place,
        }),
    }
}

fn item_step(book: &[u32], c: Cursor) -> Result<Step, Refusal>
    requires { Sound book.now c × (c.stage ≡ stage.Items) }
    ensures { (ahead book.now c ≡ step_ahead book.now result) × SoundStep book.now c result }
{
    let bands = c.bands;
    let at = c.at;
    let sums = c.sums;
    match item_at(book, at, sums)? {
        ItemAnswer::More(more, next) => Ok(Step::On(Cursor {
            stage: Stage::Items,
            at: next,
            sums: more,
            bands,
        })),
        ItemAnswer::Set => Ok(Step::On(Cursor {
            stage: Stage::Set(OpenSet::new()),
            at,
            sums,
            bands,
        })),
        ItemAnswer::End => Ok(Step::Over(sums)),
    }
}

// Where the reading of a book stands, and the next cover from there on.
ghost use Rattle.std.specs.Prelude.{◌≡◌};
ghost use Rattle.reading.specs.Ahead.{Sound, SoundNext, ahead, new_cursor, next_ahead};

use crate::steps::{Step, next_step};
use derivatives::set::OpenSet;
use heads::head::bands_of;
use rules::causes::Refusal;
use rules::{Bands, Draw, Sums, limits};

// Before the protections; where an item is due; or inside a derivative set, whose head stands at the cursor's place.
#[derive(Clone, Copy)]
pub enum Stage {
    Protections,
    Items,
    Set(OpenSet),
}

// The sums are those of the items before the place.
#[derive(Clone, Copy)]
pub struct Cursor {
    pub stage: Stage,
    pub at: usize,
    pub sums: Sums,
    pub bands: Bands,
}

// The next cover as a draw, and the cursor behind it; or the sums of the whole book.
#[derive(Clone, Copy)]
pub enum NextCover {
    Cover(Draw, Cursor),
    Over(Sums),
}

impl Cursor {
    // Before the first record behind the head, with the bands of the book's factors.
    pub fn new(book: &[u32]) -> Cursor
        ensures { result ≡ new_cursor book.now }
    {
        Cursor {
            stage: Stage::Protections,
            at: limits::FIRST_RECORD,
            sums: Sums::default(),
            bands: bands_of(book),
        }
    }
}

// The first cover from a cursor on.
pub fn next_draw(book: &[u32], from: Cursor) -> Result<NextCover, Refusal>
    requires { Sound book.now from }
    ensures { (ahead book.now from ≡ next_ahead book.now result) × SoundNext book.now result }
{
    let mut c = from;
    loop {
        match next_step(book, c)? {
            Step::On(next) => {
                c = next;
            }
            Step::Cover(draw, next) => {
                return Ok(NextCover::Cover(draw, next));
            }
            Step::Over(sums) => {
                return Ok(NextCover::Over(sums));
            }
        }
    }
}

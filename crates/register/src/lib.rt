// The lent register: the covers of a book are drawn from it one after the other, as the reading comes to them.
#![tactic(auto)]

mod book;
mod entries;

ghost use Rattle.std.specs.Prelude.{◌≡◌, ◌++◌, ◌≤◌, drop, length};
ghost use Rattle.rules.specs.Read.{first_record};
ghost use Rattle.records.specs.Readable.{Readable};
ghost use Rattle.register.specs.Draws.{admission_in, reading_after, left_after};

pub use crate::entries::clear;
use crate::entries::{draw, load_all};
use reading::cursor::{Cursor, NextCover, next_draw};
use records::record::at_place;
use rules::causes::Refusal;
use rules::{Entry, Sums};

// Loads the b protections of the book, reads it, and draws every cover. It ends with the first fault, be it of a record by itself or of
// a cover that does not fit; the draws before it stand.
pub fn settle(book: &[u32], register: &mut [Entry], b: usize) -> Result<Sums, Refusal>
    requires { Readable first_record book.now × ((b ≤ 4096) × (b ≤ length register.old)) }
    ensures { (admission_in result ≡ reading_after book.now b)
        × (register.new ≡ left_after book.now b ++ drop b register.old) }
{
    load_all(book, register, b);
    let mut cursor = Cursor::new(book);
    loop {
        match next_draw(book, cursor)? {
            NextCover::Cover(d, behind) => {
                at_place(draw(register, b, d), d.at)?;
                cursor = behind;
            }
            NextCover::Over(sums) => {
                return Ok(sums);
            }
        }
    }
}

// All of a filing but the rows: the reading, and the settling in the lent register.
ghost use Rattle.std.specs.Prelude.{◌≡◌, length};
ghost use Rattle.rules.specs.Read.{head_of};
ghost use Rattle.rules.specs.Filing.{admission, register_after};
ghost use Rattle.register.specs.Draws.{admission_in};
ghost use Rattle.filing.specs.Answers.{admission_of};

use crate::early::early;
use heads::head::protections_of;
use records::record::at_place;
use register::{clear, settle};
use rules::causes::Refusal;
use rules::{Entry, Sums};

// How far the book comes, and the whole register: number, place and sums of every book, whatever the register held. "From 5 on the first b entries
// become all zero".
pub fn admit(book: &[u32], register: &mut [Entry]) -> Result<Sums, Refusal>
    ensures { (admission_in result ≡ admission_of (head_of book.now).bands (admission book.now (length register.old)))
        × (register.new ≡ register_after (head_of book.now) (admission book.now (length register.old)) register.old) }
{
    at_place(early(book, register.len()), 0)?;
    let protections = protections_of(book);
    match settle(book, register, protections) {
        Ok(sums) => Ok(sums),
        Err(r) => {
            clear(register, protections);
            Err(r)
        }
    }
}

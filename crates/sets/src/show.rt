// The entry points.
ghost use Rattle.std.specs.Prelude.{◌≡◌, length};
ghost use Rattle.rules.specs.Read.{head_of};
ghost use Rattle.rules.specs.Filing.{admission, register_after};
ghost use Rattle.sets.specs.Sets.{VeryStretch, showing};
ghost use Rattle.sets.specs.Search.{Shows};

use crate::bounds::find_set;
use filing::admit::admit;
use rules::Entry;
use rules::causes::Refusal;

// The words of a set, as a part of the lent book. "15, after all of the book's refusals": of a refused book no set is looked for.
pub fn set_of<'a>(
    book: &'a [u32],
    ordinal: usize,
    register: &mut [Entry],
) -> Result<&'a [u32], Refusal>
    ensures { Shows book.entry (showing book.now ordinal (length register.old)) result
        × (register.new ≡ register_after (head_of book.now) (admission book.now (length register.old)) register.old) }
{
    admit(book, register)?;
    find_set(book, ordinal)
}

// Shows a set. The stretch, its number and its place are those of request A.1, for every book, ordinal and register, and all of the register is
// as a filing of that book leaves it. "Every refusal hands back an empty stretch". Number and place are lent, since the form is the one that the request
// names.
pub fn show<'a>(
    book: &'a [u32],
    ordinal: usize,
    register: &mut [Entry],
    number: &mut u32,
    place: &mut usize,
) -> &'a [u32]
    ensures { VeryStretch book.entry (showing book.now ordinal (length register.old)) result
        × ((number.new ≡ (showing book.now ordinal (length register.old)).number)
        × ((place.new ≡ (showing book.now ordinal (length register.old)).place)
        × (register.new ≡ register_after (head_of book.now) (admission book.now (length register.old)) register.old))) }
{
    match set_of(book, ordinal, register) {
        Ok(set) => {
            *number = 0;
            *place = 0;
            set
        }
        Err(r) => {
            *number = u32::from(r.cause);
            *place = r.place;
            &book[..0]
        }
    }
}

// The entry point.
ghost use Rattle.std.specs.Prelude.{◌≡◌, length};
ghost use Rattle.rules.specs.Read.{head_of};
ghost use Rattle.rules.specs.Filing.{admission, register_after};
ghost use Rattle.settings.specs.Settings.{counted_as, counting};

use crate::Counts;
use crate::chosen::count_set;
use filing::admit::admit;
use rules::Entry;
use rules::causes::Refusal;

// Counts the settings of a derivative set by their verdicts. The counts, the number and the place are those of request A.12, for every book, ordinal and
// register, and all of the register is as a filing of that book, as it stands, leaves it.
pub fn count(book: &[u32], ordinal: usize, register: &mut [Entry]) -> Result<Counts, Refusal>
    ensures { (counted_as result ≡ counting book.now ordinal register.old)
        × (register.new ≡ register_after (head_of book.now) (admission book.now (length register.old)) register.old) }
{
    let sums = admit(book, register)?;
    count_set(book, ordinal, sums)
}

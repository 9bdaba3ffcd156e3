// The derivative set of an ordinal, in a book that was admitted.
ghost use Rattle.std.specs.Prelude.{◌≡◌, List};
ghost use Rattle.rules.specs.declared.Entry as entry;
ghost use Rattle.settings.specs.Settings.{counted_as, counting};
ghost use Rattle.settings.specs.Chosen.{AdmittedAs, AdmittedBy};

use crate::Counts;
use crate::verdicts::count_settings;
use records::presence::standing;
use rules::Sums;
use rules::causes::Refusal;
use rules::kinds::Kind;
use sets::bounds::{NO_SUCH_SET, set_begin};

// "An ordinal that names no derivative set is refused 15", at place 0.
pub fn count_set(book: &[u32], ordinal: usize, sums: Sums) -> Result<Counts, Refusal>
    requires { AdmittedBy book.now sums }
    ensures { (register : List entry.Entry) → AdmittedAs book.now register sums → counted_as result ≡ counting book.now ordinal register }
{
    let Some(head) = set_begin(book, ordinal) else {
        return Err(NO_SUCH_SET);
    };
    if !standing(book, head, Kind::DerivativeSet) {
        return Err(NO_SUCH_SET);
    }
    Ok(count_settings(book, head, sums))
}

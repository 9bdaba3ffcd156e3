// From where to where in the book a set goes.
ghost use Rattle.std.specs.Prelude.{◌≡◌, ◌+◌, ◌≤◌, ◌<◌, length};
ghost use Rattle.rules.specs.Word.{kind_of, word};
ghost use Rattle.cuts.proofs.Cutting.{items_begin};
ghost use Rattle.cuts.proofs.ByKind as by_kind;
ghost use Rattle.sets.specs.Search.{ends, found_at, place_from, IsPlace, Shows, Within};

use crate::search::search;
use crate::sought::{Sought, end_of};
use heads::head::protections_of;
use rules::causes::{Cause, Refusal};
use rules::{lengths, limits};

// "An ordinal with no set is refused 15 ... with place 0".
pub const NO_SUCH_SET: Refusal = Refusal {
    cause: Cause::NoSuchSet,
    place: 0,
};

// Where the items begin: behind the head and its protections, of which no word is an item's.
#[tactic(auto, using(crate::proofs::SearchLaws::few_protections))]
pub fn items_begin(book: &[u32]) -> usize
    ensures { result ≡ items_begin book.now }
{
    limits::FIRST_RECORD + lengths::PROTECTION * protections_of(book)
}

// Where the set of an ordinal from 0 begins, if there is one.
#[tactic(auto, using(crate::proofs::SearchLaws::place_most))]
pub fn set_begin(book: &[u32], ordinal: usize) -> Option<usize>
    ensures { IsPlace (length book.now) (place_from by_kind.is_set book.now (items_begin book.now) ordinal) result }
{
    let begin = search(book, items_begin(book), ordinal, Sought::Set);
    if begin < book.len() {
        Some(begin)
    } else {
        None
    }
}

// Where the set ends that begins at a place.
#[tactic(auto, using(crate::proofs::SearchLaws::place_within))]
fn set_end(book: &[u32], begin: usize) -> usize
    requires { begin < length book.now }
    ensures { (result ≡ place_from (ends (kind_of (word book.now begin))) book.now (begin + 1) 0)
        × ((begin < result) × (result ≤ length book.now)) }
{
    search(book, begin + 1, 0, end_of(book[begin]))
}

// The words of the set of an ordinal from 0, if there is one: that very stretch of the lent book.
pub fn find_set<'a>(book: &'a [u32], ordinal: usize) -> Result<&'a [u32], Refusal>
    ensures { Shows book.entry (found_at book.now (place_from by_kind.is_set book.now (items_begin book.now) ordinal)) result
        × Within book.now (found_at book.now (place_from by_kind.is_set book.now (items_begin book.now) ordinal)) }
{
    let Some(begin) = set_begin(book, ordinal) else {
        return Err(NO_SUCH_SET);
    };
    let end = set_end(book, begin);
    Ok(&book[begin..end])
}

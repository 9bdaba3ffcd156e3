// A search by kinds: block by block, then word by word. The caller brings the two tests, and the code of a search is made for them; or names what
// is sought.
ghost use Rattle.std.specs.Prelude.{◌≡◌, ◌≤◌, ◌<◌, ℕ, Bool, IfSome, count_by, length};
ghost use Rattle.std.specs.List.{fold};
ghost use Rattle.std.specs.Int.Bits.{bit_or};
ghost use Rattle.rules.specs.Word.{kind_of};
ghost use Rattle.sets.specs.Search.{passes, place_from, IsPlace, IsQuiet, Tells};

use crate::kinds::{below_sets, leaves_financing, opens_item, opens_set, unasked};
use crate::sought::Sought;

// The words that are counted together, of which the machine takes several at once.
const BLOCK: usize = 64;

// The first words of a block, by which it is seen whether the bits of the others are worth a look.
const GLANCE: usize = 32;

// The bits that any of these words has.
fn bits_in(words: &[u32]) -> u32
    ensures { result ≡ fold bit_or 0 words.now }
{
    words.iter().fold(0, |bits, w| bits | *w)
}

// How many of these words pass.
fn count_in<F: Fn(u32) -> bool>(words: &[u32], passes: F) -> u32
    requires callable { F.IsAlwaysCallable passes }
    requires short { length words.now ≤ 64 }
    ensures { (test : ℕ → Bool) → Tells F.Fn passes test → result ≡ count_by (λ w. test (kind_of w)) words.now }
{
    words.iter().map(|w| u32::from(passes(*w))).sum()
}

// The same of a whole block, where the bits of some words may show that none of them passes. Where those of its first words do not, it is
// counted at once: to ask the others for their bits would save nothing.
fn found_in<F: Fn(u32) -> bool, Q: Fn(u32) -> bool>(
    block: &[u32; BLOCK],
    passes: F,
    quiet: Q,
) -> u32
    requires callable { F.IsAlwaysCallable passes }
    requires askable { Q.IsAlwaysCallable quiet }
    ensures { (test : ℕ → Bool) → Tells F.Fn passes test → IsQuiet Q.Fn quiet test → result ≡ count_by (λ w. test (kind_of w)) block.now }
{
    let (near, far) = block.split_at(GLANCE);
    if quiet(bits_in(near)) {
        if quiet(bits_in(far)) {
            return 0;
        }
    }
    count_in(block, passes)
}

// Where the word of this ordinal stands among those that pass, one by one.
fn one_by_one<F: Fn(u32) -> bool>(words: &[u32], ordinal: usize, passes: F) -> Option<usize>
    requires { F.IsAlwaysCallable passes }
    ensures within { IfSome result (λ at. at < length words.now) }
    ensures place { (test : ℕ → Bool) → Tells F.Fn passes test → IsPlace (length words.now) (place_from test words.now 0 ordinal) result }
{
    let mut left = ordinal;
    for (i, w) in words.iter().enumerate() {
        if passes(*w) {
            if left == 0 {
                return Some(i);
            }
            left -= 1;
        }
    }
    None
}

// From a place on, where the word stands that has this ordinal, from 0, among those that pass. All blocks that do not
// hold it are left behind.
pub fn search_by<F: Fn(u32) -> bool + Copy, Q: Fn(u32) -> bool + Copy>(
    book: &[u32],
    from: usize,
    ordinal: usize,
    passes: F,
    quiet: Q,
) -> Option<usize>
    requires callable { F.IsAlwaysCallable passes }
    requires askable { Q.IsAlwaysCallable quiet }
    ensures { (test : ℕ → Bool) → Tells F.Fn passes test → IsQuiet Q.Fn quiet test → IsPlace (length book.now) (place_from test book.now from ordinal) result }
{
    let mut rest = &book[from.min(book.len())..];
    let mut left = ordinal;
    while let Some((block, behind)) = rest.split_first_chunk::<BLOCK>() {
        let found = found_in(block, passes, quiet) as usize;
        if found > left {
            break;
        }
        left -= found;
        rest = behind;
    }
    let at = one_by_one(rest, left, passes)?;
    Some(book.len() - rest.len() + at)
}

// From a place on, where the word stands that has this ordinal, from 0, among those that are sought; the book's length where there is none.
// Stretches of assets alone are seen by their bits to have no set.
pub fn search(book: &[u32], from: usize, ordinal: usize, sought: Sought) -> usize
    ensures { result ≡ place_from (passes sought) book.now from ordinal }
{
    match sought {
        Sought::Set => {
            search_by(book, from, ordinal, opens_set, below_sets).unwrap_or(book.len())
        }
        Sought::EndOfDerivatives => {
            search_by(book, from, ordinal, opens_item, unasked).unwrap_or(book.len())
        }
        Sought::EndOfFinancing => {
            search_by(book, from, ordinal, leaves_financing, unasked).unwrap_or(book.len())
        }
    }
}

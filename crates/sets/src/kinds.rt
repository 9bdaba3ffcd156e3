// The kinds of words that a search looks for, and what the bits of several words say of them.
ghost use Rattle.std.specs.Prelude.{◌≡◌, ◌^◌, false, ltb};
ghost use Rattle.rules.specs.Word.{kind_of};
ghost use Rattle.cuts.proofs.ByKind as by_kind;
ghost use Rattle.sets.specs.Search.{leaves_financing};

use rules::kinds::Kind;
use words::parts::is_kind;

// The least word of a kind with bit 30 or 31, as those of sets are.
const KINDS_FROM_4: u32 = 1 << 30;

// "counting kinds 4 and 8 together"
pub fn opens_set(w: u32) -> bool
    ensures { result ≡ by_kind.is_set (kind_of w) }
{
    is_kind(w, Kind::DerivativeSet) | is_kind(w, Kind::FinancingSet)
}

// "A set runs until another of these kinds or the end".
pub fn opens_item(w: u32) -> bool
    ensures { result ≡ by_kind.opens (kind_of w) }
{
    is_kind(w, Kind::Asset)
        | is_kind(w, Kind::DerivativeSet)
        | is_kind(w, Kind::FinancingSet)
        | is_kind(w, Kind::OffBalance)
        | is_kind(w, Kind::End)
}

// Neither an amount nor a financing trade.
pub fn leaves_financing(w: u32) -> bool
    ensures { result ≡ leaves_financing (kind_of w) }
{
    !(is_kind(w, Kind::Amount) | is_kind(w, Kind::FinancingTrade))
}

// The bits of some words show that none of them opens a set, as in stretches of assets alone.
pub fn below_sets(bits: u32) -> bool
    ensures { result ≡ ltb bits (2 ^ 30) }
{
    bits < KINDS_FROM_4
}

// The bits are not asked.
pub fn unasked(_bits: u32) -> bool
    ensures { result ≡ false }
{
    false
}

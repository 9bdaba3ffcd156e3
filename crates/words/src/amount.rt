// An amount: "bit 27 the sign, bits 26 to 0 the size".
ghost use Rattle.std.specs.Prelude.{◌≡◌, not, ◌&&◌, eqb};
ghost use Rattle.rules.specs.Word.{bit_of, kind_of, faulty_amount, faulty_days, gain_of, loss_of, minus_zero, size_of};

use crate::parts::{bit, payload};
use rules::limits;

pub fn size(w: u32) -> u32
    ensures { result ≡ size_of w }
{
    w & 0x07ffffff
}

// The sign is set.
pub fn negative(w: u32) -> bool
    ensures { result ≡ bit_of 27 w }
{
    bit(w, 27)
}

// The size where the sign is not set, otherwise 0.
#[tactic(auto, unfolding(rules::specs::Word::gain_of))]
pub fn gain(w: u32) -> u32
    ensures { result ≡ gain_of w }
{
    if negative(w) { 0 } else { size(w) }
}

// The size where the sign is set, otherwise 0.
#[tactic(auto, unfolding(rules::specs::Word::loss_of))]
pub fn loss(w: u32) -> u32
    ensures { result ≡ loss_of w }
{
    if negative(w) { size(w) } else { 0 }
}

// The sign and no size.
pub fn minus_zero(w: u32) -> bool
    ensures { result ≡ minus_zero w }
{
    payload(w) == 0x08000000
}

// The sign, where no negative is allowed.
pub fn faulty_amount(w: u32) -> bool
    ensures { result ≡ faulty_amount w }
{
    payload(w) >= 0x08000000
}

// Days beyond 65,535; the sign too puts them there.
pub fn faulty_days(w: u32) -> bool
    ensures { result ≡ faulty_days w }
{
    payload(w) > limits::DAYS
}

// An amount of either sign: as two tests of the whole word.
pub fn plain_value(w: u32) -> bool
    ensures { result ≡ (eqb (kind_of w) 0 && not (minus_zero w)) }
{
    (w < 0x10000000) & (w != 0x08000000)
}

// Days: as one test of the whole word.
pub fn plain_days(w: u32) -> bool
    ensures { result ≡ (eqb (kind_of w) 0 && not (faulty_days w)) }
{
    w <= limits::DAYS
}

// An amount, and not negative: as one test of the whole word.
pub fn plain_amount(w: u32) -> bool
    ensures { result ≡ (eqb (kind_of w) 0 && not (faulty_amount w)) }
{
    w < 0x08000000
}

// A word's kind, payload, single bits and fields.
ghost use Rattle.std.specs.Prelude.{◌≡◌, ◌^◌, ◌≤◌, ◌&&◌, eqb, leb, not};
ghost use Rattle.rules.specs.Numbers.{kind_number};
ghost use Rattle.rules.specs.Word.{bit_of, field_of, kind_of, payload_of};

use rules::kinds::Kind;

pub fn kind(w: u32) -> u32
    ensures { result ≡ kind_of w }
{
    w >> 28
}

pub fn payload(w: u32) -> u32
    ensures { result ≡ payload_of w }
{
    w & 0x0fffffff
}

// A word has no bit beyond 31: those count as 0.
#[tactic(auto, using(crate::proofs::Masks::bit_beyond))]
pub fn bit(w: u32, k: u32) -> bool
    ensures { result ≡ bit_of k w }
{
    k < 32 && (w >> k) & 1 == 1
}

// `count` bits from the bit `low` on. A mask of 32 bits or more would not fit a word, and would leave it as it is.
#[tactic(auto, using(crate::proofs::Masks::field_steps))]
pub fn field(w: u32, low: u32, count: u32) -> u32
    ensures { result ≡ field_of low count w }
{
    if low >= 32 {
        return 0;
    }
    if count >= 32 {
        return w >> low;
    }
    let mask = (1 << count) - 1;
    (w >> low) & mask
}

// A word is of a kind.
pub fn is_kind(w: u32, k: Kind) -> bool
    ensures { result ≡ eqb (kind_of w) (kind_number k) }
{
    kind(w) == u32::from(k)
}

// A head word of a kind, whose lowest `bits` bits may be set and no others of its payload: as one test of all bits from there on.
#[tactic(auto, using(crate::proofs::Heads::whole_head))]
pub fn is_head(w: u32, k: Kind, bits: u32) -> bool
    requires { bits ≤ 28 }
    ensures { result ≡ (eqb (kind_of w) (kind_number k) && not (leb (2 ^ bits) (payload_of w))) }
{
    w >> bits == u32::from(k) << (28 - bits)
}

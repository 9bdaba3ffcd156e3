// Answers in one number: the number in bits 0-7, the verdict in bits 8-15, the place from bit 16 on.
ghost use Rattle.std.specs.Prelude.{◌≡◌};
ghost use Rattle.leverage.specs.Packed.{packed_answer, without_verdict};

use rules::causes::Refusal;
use rules::verdicts;
use rules::verdicts::Verdict;

// The verdict of a refused book, in its place.
const REFUSED: u64 = 256 * (verdicts::REFUSED as u64);

// By number and place, since an answer without a refusal has 0 for both. Where there is no verdict the one of a refused book stands, so that no answer says by chance that Tier 1 is enough.
pub fn without_verdict(number: u32, place: usize) -> u64
    ensures { result ≡ without_verdict number place }
{
    u64::from(number) + REFUSED + 65536 * (place as u64 % 4294967296)
}

pub fn pack(a: Result<Verdict, Refusal>) -> u64
    ensures { result ≡ packed_answer a }
{
    match a {
        Ok(verdict) => 256 * u64::from(u32::from(verdict)),
        Err(r) => without_verdict(u32::from(r.cause), r.place),
    }
}

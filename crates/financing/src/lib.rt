// Financing sets: securities financing trades with one counterparty (document 01, kinds 8 and 9, rows 12 to 15).
#![tactic(auto)]

ghost use Rattle.std.specs.Prelude.{◌≡◌};
ghost use Rattle.rules.specs.declared.Bands.{Bands};
ghost use Rattle.rules.specs.Word.{kind_of, word};
ghost use Rattle.rules.specs.Read.{financing_set_turn};
ghost use Rattle.records.specs.Readable.{Readable};
ghost use Rattle.records.specs.Step.{item_step, step_of};

use crate::faults::check_set;
use crate::tally::set_sums;
use crate::trades::weigh;
use records::record::at_place;
use rules::Sums;
use rules::causes::Refusal;

mod faults;
mod good;
mod read;
mod tally;
mod trades;

// What the set at the head of a part of the book brings, and the place behind it: "A part of the lent book starting at the set's head is
// handed on to the function that weighs the set". No row of it goes by the bands. Places count from the set's head.
pub fn financing_set(part: &[u32]) -> Result<(Sums, usize), Refusal>
    requires { Readable 1 part.now × (kind_of (word part.now 0) ≡ 8) }
    ensures { (bands : Bands) → step_of result ≡ item_step bands (financing_set_turn part.now) }
{
    let head = part[0];
    at_place(check_set(head), 0)?;
    let (t, next) = weigh(part)?;
    Ok((set_sums(t, head), next))
}

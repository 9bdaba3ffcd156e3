// Kind 3, the bought protections: "exactly b of them after the head".
ghost use Rattle.std.specs.Prelude.{◌≡◌};
ghost use Rattle.rules.specs.Read.{first_record, protection_turn};
ghost use Rattle.rules.specs.Run.{run_from};
ghost use Rattle.records.specs.Readable.{Readable};
ghost use Rattle.reading.specs.Steps.{place_of, protection_step, protections_in};

use records::protections::ProtectionWords;
use records::record::{at_place, check_at};
use rules::causes::{Cause, Refusal};
use rules::kinds::Kind;
use rules::{lengths, limits};
use words::parts::is_kind;

// The place behind the protection that is due.
fn protection(book: &[u32], at: usize) -> Result<usize, Refusal>
    requires { Readable at book.now }
    ensures { protections_in result ≡ protection_step (protection_turn book.now at) }
{
    if book.len() <= at {
        return Err(Refusal {
            cause: Cause::EndFaulty,
            place: book.len(),
        });
    }
    if !is_kind(book[at], Kind::Protection) {
        return Err(Refusal {
            cause: Cause::KindNotAllowed,
            place: at,
        });
    }
    at_place(check_at::<ProtectionWords>(book, at), at)?;
    Ok(at + lengths::PROTECTION)
}

// How far the protections reach.
pub fn read_protections(book: &[u32], b: usize) -> Result<usize, Refusal>
    requires { Readable first_record book.now }
    ensures { protections_in result ≡ place_of (run_from (protection_turn book.now) b first_record) }
{
    let mut at = limits::FIRST_RECORD;
    for _i in 0..b {
        at = protection(book, at)?;
    }
    Ok(at)
}

// The refusals before the records.
ghost use Rattle.std.specs.Prelude.{◌≡◌};
ghost use Rattle.rules.specs.Numbers.{fault_in};
ghost use Rattle.filing.specs.Answers.{early_number};

use heads::head::{date_faulty, head_faulty, protections_of};
use rules::causes::Cause;
use rules::limits;
use words::causes::refuse_if;

// 2 where the book is too long, 3 where its head is not good, 16 where its date is not, 4 where the register is too short for it. All is asked before
// it is put in order, which makes the code faster (docs/DECISIONS.md).
#[tactic(auto, unfolding(crate::specs::Answers::early_number, rules::specs::Faults::cause))]
pub fn early(book: &[u32], entries: usize) -> Result<(), Cause>
    ensures { fault_in result ≡ early_number book.now entries }
{
    refuse_if(book.len() > limits::BOOK_WORDS, Cause::BookLong)?;
    let faulty_head = head_faulty(book);
    let faulty_date = date_faulty(book);
    let protections = protections_of(book);
    refuse_if(faulty_head, Cause::HeadFaulty)?;
    refuse_if(faulty_date, Cause::DateFaulty)?;
    refuse_if(entries < protections, Cause::RegisterShort)
}

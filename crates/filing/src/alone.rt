// For callers that lend no register.
ghost use Rattle.std.specs.Prelude.{◌≡◌, replicate};
ghost use Rattle.rules.specs.Register.{blank};
ghost use Rattle.rules.specs.Filing.{filing};
ghost use Rattle.filing.specs.Answers.{filed, seen};

use crate::file::file;
use rules::causes::Refusal;
use rules::verdicts::Verdict;
use rules::{Entry, limits};

// Files a book with a register of 1,024 entries of its own.
pub fn file_alone(book: &[u32], rows: &mut [i64]) -> Result<Verdict, Refusal>
    ensures { seen (filed result rows.new (replicate 1024 blank)) ≡ seen (filing book.now rows.old (replicate 1024 blank)) }
{
    let mut register = [Entry::default(); limits::OWN_ENTRIES];
    file(book, rows, &mut register)
}

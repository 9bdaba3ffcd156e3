// The entry point.
ghost use Rattle.std.specs.Prelude.{◌≡◌};
ghost use Rattle.rules.specs.Filing.{filing};
ghost use Rattle.filing.specs.Answers.{filed};

use crate::admit::admit;
use crate::report::report;
use rules::causes::{Cause, Refusal};
use rules::verdicts::Verdict;
use rules::{Entry, limits};

// Files a book. Number, place and verdict, all of the rows and all of the register are those of document 01, for every book, rows and
// register of any length, whatever the two lent buffers held.
pub fn file(book: &[u32], rows: &mut [i64], register: &mut [Entry]) -> Result<Verdict, Refusal>
    ensures { filed result rows.new register.new ≡ filing book.now rows.old register.old }
{
    if rows.len() < limits::ROWS {
        return Err(Refusal {
            cause: Cause::RowsShort,
            place: 0,
        });
    }
    let sums = admit(book, register)?;
    Ok(report(book, rows, sums))
}

// The template, written only on acceptance.
ghost use Rattle.std.specs.Prelude.{◌≡◌, ◌++◌, ◌≤◌, drop, length};
ghost use Rattle.rules.specs.Numbers.{verdict_number};
ghost use Rattle.rules.specs.Read.{head_of};
ghost use Rattle.rules.specs.Ratio.{tier1_of, verdict_of};
ghost use Rattle.rules.specs.Rows.{exposure_row, rows_of};
ghost use Rattle.template.specs.Sections.{SumsFit};

use heads::head::tier1;
use rules::Sums;
use rules::verdicts::Verdict;
use template::exposure::exposure;
use template::ratio::verdict;
use template::rows::{copy_out, rows_of};

// The twenty-two rows of an accepted book, and its verdict.
pub fn report(book: &[u32], rows: &mut [i64], s: Sums) -> Verdict
    requires { (22 ≤ length rows.old) × SumsFit s }
    ensures { (verdict_number result ≡ verdict_of (tier1_of (head_of book.now).gain (head_of book.now).loss) (exposure_row s))
        × (rows.new ≡ rows_of s (head_of book.now).gain (head_of book.now).loss ++ drop 22 rows.old) }
{
    let t = tier1(book);
    copy_out(rows_of(s, t), rows);
    verdict(t, exposure(s))
}

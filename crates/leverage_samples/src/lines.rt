// The lines that are written.
ghost use Rattle.std.specs.Prelude.{codes, ◌++◌, length, OnOk};
ghost use Rattle.std.specs.Fmt.{decimal};
ghost use Rattle.std.specs.Io.KnownBytes.{Appends};
ghost use Rattle.leverage_samples.specs.Lines.{answer_text, line_of, row_texts};

use rules::causes::Refusal;
use rules::verdicts;
use rules::verdicts::Verdict;
use std::io;
use std::io::Write;
use streams::{end_line, print_signed};

// "number 0, place 0 and the verdict (3 on refusal)"
fn print_answer<W: Write>(out: &mut W, a: Result<Verdict, Refusal>) -> io::Result<()>
    ensures { OnOk result (Appends (W.contents out.old) (W.contents out.new) (answer_text a)) }
{
    match a {
        Ok(verdict) => write!(out, "{} {} {verdict}", 0, 0),
        Err(r) => write!(out, "{} {} {}", r.cause, r.place, verdicts::REFUSED),
    }
}

fn print_rows<W: Write>(out: &mut W, rows: &[i64]) -> io::Result<()>
    ensures { OnOk result (Appends (W.contents out.old) (W.contents out.new) (row_texts rows.now (length rows.now))) }
{
    for k in 0..rows.len() {
        out.write_all(b" ")?;
        print_signed(out, rows[k])?;
    }
    Ok(())
}

pub fn print_line<W: Write>(
    out: &mut W,
    a: Result<Verdict, Refusal>,
    rows: &[i64],
) -> io::Result<()>
    ensures { OnOk result (Appends (W.contents out.old) (W.contents out.new) (line_of a rows.now)) }
{
    print_answer(out, a)?;
    print_rows(out, rows)?;
    end_line(out)
}

pub fn print_count<W: Write>(out: &mut W, books: u64) -> io::Result<()>
    ensures { OnOk result (Appends (W.contents out.old) (W.contents out.new) (decimal books ++ codes " books\n")) }
{
    writeln!(out, "{books} books")
}

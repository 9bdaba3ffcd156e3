// Prints the template of the book on standard input (document 01, "The printing program").
#![tactic(auto)]

ghost use Rattle.std.specs.Prelude.{◌≡◌, ◌%◌, ◌≤◌, IfSome, OnOk, length};
ghost use Rattle.std.specs.Io.KnownBytes.{Appends};
ghost use Rattle.rules.specs.Numbers.{cause_number, verdict_number};
ghost use Rattle.leverage_print.specs.Printed.{book_text, own_bytes, printed, refused_line, row_line, row_lines, verdict_line};

use filing::alone::file_alone;
use rules::causes::Refusal;
use rules::limits;
use rules::verdicts::Verdict;
use std::io;
use std::io::{Read, Write};
use streams::{gather, read_full};

// "holds 16,384 words": those of the longest book that it takes
const OWN_WORDS: usize = 16384;

const OWN_BYTES: usize = 4 * OWN_WORDS;

fn print_row<W: Write>(out: &mut W, number: usize, value: i64) -> io::Result<()>
    ensures { OnOk result (Appends (W.contents out.old) (W.contents out.new) (row_line number value)) }
{
    writeln!(out, "{number} {value}")
}

// "22 lines of row number, space, value"
fn print_rows<W: Write>(out: &mut W, rows: [i64; limits::ROWS]) -> io::Result<()>
    ensures { OnOk result (Appends (W.contents out.old) (W.contents out.new) (row_lines rows 22)) }
{
    for k in 0..limits::ROWS {
        print_row(out, k + 1, rows[k])?;
    }
    Ok(())
}

fn print_refusal<W: Write>(out: &mut W, refusal: Refusal) -> io::Result<()>
    ensures { OnOk result (Appends (W.contents out.old) (W.contents out.new) (refused_line (cause_number refusal.cause) refusal.place)) }
{
    writeln!(out, "{refusal}")
}

fn print_verdict<W: Write>(out: &mut W, verdict: Verdict) -> io::Result<()>
    ensures { OnOk result (Appends (W.contents out.old) (W.contents out.new) (verdict_line (verdict_number verdict))) }
{
    writeln!(out, "verdict {verdict}")
}

// Files the words of the bytes, and prints what came of it.
fn print_filed<W: Write>(out: &mut W, bytes: &[u8]) -> io::Result<()>
    requires whole { length bytes.now % 4 ≡ 0 }
    requires room { length bytes.now ≤ own_bytes }
    ensures { OnOk result (Appends (W.contents out.old) (W.contents out.new) (book_text bytes.now)) }
{
    let n = bytes.len() / 4;
    let mut words = [0u32; OWN_WORDS];
    gather(bytes, &mut words, n);
    let mut rows = [0i64; limits::ROWS];
    match file_alone(&words[..n], &mut rows) {
        Ok(verdict) => {
            print_rows(out, rows)?;
            print_verdict(out, verdict)
        }
        Err(refusal) => print_refusal(out, refusal),
    }
}

// Reads a book and prints its template, or what is wrong with the input.
fn print_template<R: Read, W: Write>(input: &mut R, out: &mut W) -> io::Result<()>
    ensures { OnOk result (IfSome (R.remaining input.old)
        (λ bytes. Appends (W.contents out.old) (W.contents out.new) (printed bytes))) }
{
    // a byte more than its own words have, so that more is seen
    let mut bytes = [0u8; OWN_BYTES + 1];
    let n = read_full(input, &mut bytes)?;
    if n > OWN_BYTES {
        return out.write_all(b"input 2\n");
    }
    if n % 4 != 0 {
        return out.write_all(b"input 1\n");
    }
    print_filed(out, &bytes[..n])
}

fn main(rt: HostRuntime) -> io::Result<()> {
    print_template(&mut rt.reader(), &mut io::writer(&rt))
}

// Files the books of the file `books`, one after another in the same buffers, and writes a line for each: number, place, verdict, and the
// rows as they stand. Each of the numbers 0 to 14, 16 and 17 and of the verdicts 0 to 3 occurs. The register is `file_alone`'s own, so that it does
// not show here; the comparison through the static library holds it.
//
// `make samples` writes `books` and the lines expected, by the implementation in compare/.
#![tactic(auto)]

mod lines;
mod sample;

use rules::limits;
use sample::{Buffers, file_next};
use std::fs::File;
use std::io;
use std::io::{Read, Write};

// Files book after book; how many there were.
fn file_each<R: Read, W: Write>(
    input: &mut R,
    out: &mut W,
    buffers: &mut Buffers,
) -> io::Result<u64> {
    for count in 0..100000 {
        if !file_next(input, out, buffers)? {
            return Ok(count);
        }
    }
    Ok(100000)
}

fn file_all<R: Read, W: Write>(input: &mut R, out: &mut W) -> io::Result<u64> {
    let mut bytes = [0u8; 65536];
    // a word more than a book may have, so that one is too long
    let mut words = [0u32; limits::BOOK_WORDS + 1];
    // two rows more than a filing writes
    let mut rows = [-1i64; limits::ROWS + 2];
    let mut buffers = Buffers {
        bytes: &mut bytes,
        words: &mut words,
        rows: &mut rows,
    };
    file_each(input, out, &mut buffers)
}

fn print_all<R: Read, W: Write>(input: &mut R, out: &mut W) -> io::Result<()> {
    let count = file_all(input, out)?;
    lines::print_count(out, count)
}

fn main(rt: HostRuntime) -> io::Result<()> {
    match File::open(&rt, "books") {
        Ok(mut books) => print_all(&mut books, &mut io::writer(&rt)),
        Err(e) => eprintln!(rt; "books: {e}"),
    }
}

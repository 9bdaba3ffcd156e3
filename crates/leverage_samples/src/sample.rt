// A book in the file: how many rows are lent, how many words the book has, how many of these follow, and these. The others are 0.
ghost use Rattle.std.specs.Prelude.{◌≡◌, ◌*◌, ◌≤◌, length, IsTrue};

use crate::lines::print_line;
use filing::alone::file_alone;
use std::io;
use std::io::{Read, Write};
use streams::{gather, read_full};

// What stands before a book.
#[derive(Clone, Copy, Debug, PartialEq, Eq)]
struct Heading {
    rows: usize,
    words: usize,
    stored: usize,
}

// Where one book after another is read to, and the rows that are lent to it.
#[derive(Drop)]
pub struct Buffers<'a> {
    pub bytes: &'a mut [u8],
    pub words: &'a mut [u32],
    pub rows: &'a mut [i64],
}

// The next heading, if the input has one more.
fn next_heading<R: Read>(input: &mut R) -> io::Result<Option<Heading>> {
    let mut front = [0u8; 12];
    if read_full(input, &mut front)? < 12 {
        return Ok(None);
    }
    let mut numbers = [0u32; 3];
    gather(&front, &mut numbers, 3);
    let [rows, words, stored] = numbers;
    Ok(Some(Heading {
        rows: rows as usize,
        words: words as usize,
        stored: stored as usize,
    }))
}

impl Buffers<'_> {
    // There is room for the rows, the words and the bytes of such a book.
    fn fits(&self, h: Heading) -> bool
        ensures rows { IsTrue result → h.rows ≤ length self.now.rows.now }
        ensures words { IsTrue result → h.words ≤ length self.now.words.now }
        ensures bytes { IsTrue result → (h.stored ≤ h.words) × (4 * h.stored ≤ length self.now.bytes.now) }
    {
        h.rows <= self.rows.len()
            && h.words <= self.words.len()
            && h.stored <= h.words
            && h.stored <= self.bytes.len() / 4
    }

    // The words of a book of which some are in the file; whether these were there.
    fn load<R: Read>(&mut self, input: &mut R, h: Heading) -> io::Result<bool>
        requires words { h.words ≤ length self.old.words.now }
        requires bytes { (h.stored ≤ h.words) × (4 * h.stored ≤ length self.old.bytes.now) }
        ensures words { length self.new.words.now ≡ length self.old.words.now }
        ensures rows { self.new.rows.now ≡ self.old.rows.now }
    {
        let bytes = &mut *self.bytes;
        let words = &mut *self.words;
        let n = 4 * h.stored;
        if read_full(input, &mut bytes[..n])? < n {
            return Ok(false);
        }
        gather(bytes, words, h.stored);
        words[h.stored..h.words].fill(0);
        Ok(true)
    }
}

// Files the next book and writes its line; false where there is none for which the buffers have room.
pub fn file_next<R: Read, W: Write>(
    input: &mut R,
    out: &mut W,
    buffers: &mut Buffers,
) -> io::Result<bool> {
    let Some(h) = next_heading(input)? else {
        return Ok(false);
    };
    if !buffers.fits(h) || !buffers.load(input, h)? {
        return Ok(false);
    }
    let words = &mut *buffers.words;
    let rows = &mut *buffers.rows;
    let a = file_alone(&words[..h.words], &mut rows[..h.rows]);
    print_line(out, a, rows)?;
    Ok(true)
}

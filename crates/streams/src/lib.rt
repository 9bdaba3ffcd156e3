// What the programs read and write: words out of bytes, and numbers in decimal digits.
#![tactic(auto)]

ghost use Rattle.std.specs.Prelude.{◌≡◌, ℕ, ◌*◌, ◌<◌, ◌≤◌, length, take, slice_index, IfOk, OnOk, [], ◌∷◌};
ghost use Rattle.std.specs.Io.KnownBytes.{Appends, Consumes, IsAtEnd};
ghost use Rattle.streams.specs.Words.{word, word_at};
ghost use Rattle.std.specs.Fmt.{signed_decimal};

use std::io;
use std::io::{Read, Write};

// A little-endian word of four bytes.
pub fn word_of(bytes: [u8; 4]) -> u32
    ensures { result ≡ word (slice_index bytes 0) (slice_index bytes 1) (slice_index bytes 2) (slice_index bytes 3) }
{
    u32::from_le_bytes(bytes)
}

// The first n words of the bytes, four bytes to a word.
pub fn gather(bytes: &[u8], words: &mut [u32], n: usize)
    requires { (n ≤ length words.old) × (4 * n ≤ length bytes.now) }
    ensures gathered { (k : ℕ) → k < n → slice_index words.new k ≡ word_at bytes.now k }
    ensures kept { (k : ℕ) → n ≤ k → slice_index words.new k ≡ slice_index words.old k }
{
    for i in 0..n {
        let at = 4 * i;
        words[i] = word_of([bytes[at], bytes[at + 1], bytes[at + 2], bytes[at + 3]]);
    }
}

// Reads until the buffer is full or the input ends, and says how many bytes there were: one read of a pipe may give fewer than are
// still to come. The library's own loops say less where the input ends early, or want memory.
pub fn read_full<R: Read>(input: &mut R, bytes: &mut [u8]) -> io::Result<usize>
    ensures within { IfOk result (λ n. n ≤ length bytes.new) }
    ensures read { IfOk result (λ n. Consumes (R.remaining input.old) (R.remaining input.new) (take n bytes.new)) }
    ensures end { IfOk result (λ n. n < length bytes.new → IsAtEnd (R.remaining input.new)) }
{
    let mut done = 0;
    while done < bytes.len() {
        let n = input.read(&mut bytes[done..])?;
        if n == 0 {
            break;
        }
        done += n;
    }
    Ok(done)
}

// A signed number in decimal digits.
pub fn print_signed<W: Write>(out: &mut W, value: i64) -> io::Result<()>
    ensures { OnOk result (Appends (W.contents out.old) (W.contents out.new) (signed_decimal value)) }
{
    write!(out, "{value}")
}

pub fn end_line<W: Write>(out: &mut W) -> io::Result<()>
    ensures { OnOk result (Appends (W.contents out.old) (W.contents out.new) (10 ∷ [])) }
{
    out.write_all(b"\n")
}

// The entry points for C: a slice passes as a pointer and a length.
ghost use Rattle.std.specs.Prelude.{◌≡◌, length};
ghost use Rattle.rules.specs.Read.{head_of};
ghost use Rattle.rules.specs.Filing.{admission, filing, register_after};
ghost use Rattle.sets.specs.Sets.{VeryStretch, showing};
ghost use Rattle.settings.specs.Settings.{counting};
ghost use Rattle.leverage.specs.Packed.{packed, packed_shown, counts_in, packed_counted};

use crate::counts::put_counts;
use crate::packed::{pack, without_verdict};
use filing::file::file;
use rules::Entry;
use sets::show::set_of;
use settings::count::count;

// As `file`, with the answer packed.
#[unsafe(no_mangle)]
pub extern "C" fn leverage_file(book: &[u32], rows: &mut [i64], register: &mut [Entry]) -> u64
    ensures { (result ≡ packed (filing book.now rows.old register.old))
        × ((rows.new ≡ (filing book.now rows.old register.old).rows)
        × (register.new ≡ (filing book.now rows.old register.old).register)) }
{
    pack(file(book, rows, register))
}

// As `show` of crate sets, with number and place packed and the stretch written where the caller has lent room for it: a pointer and a count,
// into the caller's own book.
#[unsafe(no_mangle)]
pub extern "C" fn leverage_show<'a>(
    book: &'a [u32],
    ordinal: usize,
    register: &mut [Entry],
    stretch: &mut &'a [u32],
) -> u64
    ensures { VeryStretch book.entry (showing book.now ordinal (length register.old)) stretch.new
        × ((result ≡ packed_shown (showing book.now ordinal (length register.old)))
        × (register.new ≡ register_after (head_of book.now) (admission book.now (length register.old)) register.old)) }
{
    match set_of(book, ordinal, register) {
        Ok(words) => {
            *stretch = words;
            without_verdict(0, 0)
        }
        Err(r) => {
            *stretch = &book[..0];
            without_verdict(u32::from(r.cause), r.place)
        }
    }
}

// As `count` of crate settings, with number and place packed and the three counts written where the caller has lent room for them.
#[unsafe(no_mangle)]
pub extern "C" fn leverage_settings(
    book: &[u32],
    ordinal: usize,
    register: &mut [Entry],
    counts: &mut [u32; 3],
) -> u64
    ensures { (counts.new ≡ counts_in (counting book.now ordinal register.old))
        × ((result ≡ packed_counted (counting book.now ordinal register.old))
        × (register.new ≡ register_after (head_of book.now) (admission book.now (length register.old)) register.old)) }
{
    let c = count(book, ordinal, register);
    put_counts(c, counts)
}

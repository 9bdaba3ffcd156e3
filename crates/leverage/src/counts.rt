// The counts of a set's settings, for callers in C.
ghost use Rattle.std.specs.Prelude.{◌≡◌};
ghost use Rattle.settings.specs.Settings.{counted_as};
ghost use Rattle.leverage.specs.Packed.{counts_in, packed_counted};

use crate::packed::without_verdict;
use rules::causes::Refusal;
use settings::Counts;

// Each count is written at the place that is the number of its verdict, from 0 on; the number and the place are handed back in one number.
// "every refusal has all three counts 0"
pub fn put_counts(c: Result<Counts, Refusal>, counts: &mut [u32; 3]) -> u64
    ensures { (counts.new ≡ counts_in (counted_as c)) × (result ≡ packed_counted (counted_as c)) }
{
    match c {
        Ok(c) => {
            *counts = [c.met, c.missed, c.no_exposure];
            without_verdict(0, 0)
        }
        Err(r) => {
            *counts = [0, 0, 0];
            without_verdict(u32::from(r.cause), r.place)
        }
    }
}

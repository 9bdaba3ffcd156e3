// The three ways, for the benchmark: none relies on its caller.
ghost use Rattle.std.specs.Prelude.{◌≡◌, ◌-◌, ℕ, false};
ghost use Rattle.rules.specs.Weighted.{weighted_of};
ghost use Rattle.addon_bench.specs.Answered.{answered, refuses};

use weights::addon::{by_share, weighted};

// The largest number: no weighted add-on is above its X, so that none of what is taken reaches it.
const REFUSAL: u64 = 0xffffffffffffffff;

// What `weights::addon::weighted` asks a gross value to be below.
const GROSS_LIMIT: u64 = 1 << 59;

fn refused(x: u64, gross: u64) -> bool
    ensures { result ≡ refuses x gross }
{
    (x == REFUSAL) | (gross == 0) | (GROSS_LIMIT <= gross)
}

// A way works the weighted add-on out for what is not refused.
#[tactic(auto, unfolding(crate::specs::Answered::answered))]
fn answer<F: Fn(u64, u64, u64) -> u64>(x: u64, gross: u64, losses: u64, way: F) -> u64
    requires may { refuses x gross ≡ false → F.pre way x gross losses }
    requires right { refuses x gross ≡ false → (r : ℕ) → F.post way x gross losses r → r ≡ weighted_of x gross (gross - losses) }
    ensures { result ≡ answered x gross losses }
{
    if refused(x, gross) {
        return REFUSAL;
    }
    way(x, gross, losses)
}

// As the product works it out.
#[unsafe(no_mangle)]
pub extern "C" fn addon_directly(x: u64, gross: u64, losses: u64) -> u64
    ensures { result ≡ answered x gross losses }
{
    answer(x, gross, losses, weighted)
}

// By the share alone, as the product did before request A.5.
#[unsafe(no_mangle)]
pub extern "C" fn addon_by_share(x: u64, gross: u64, losses: u64) -> u64
    ensures { result ≡ answered x gross losses }
{
    answer(x, gross, losses, |x, gross, losses| {
        by_share::<false>(x, gross, gross.saturating_sub(losses))
    })
}

// By halves down to zero, as document 01 words it, also where the product fits 64 bits.
#[unsafe(no_mangle)]
pub extern "C" fn addon_by_halving(x: u64, gross: u64, losses: u64) -> u64
    ensures { result ≡ answered x gross losses }
{
    answer(x, gross, losses, |x, gross, losses| {
        by_share::<true>(x, gross, gross.saturating_sub(losses))
    })
}

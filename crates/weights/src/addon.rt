// The weighted add-on of a set (document 01, "Weighing a set"; request A.5).
ghost use Rattle.std.specs.Prelude.{◌≡◌, ◌*◌, ◌-◌, ◌^◌, ◌≤◌, ◌<◌};
ghost use Rattle.rules.specs.Weighted.{ceil, weighted_of};

use crate::share::Fraction;

// "X times (2G + 3N) / 5G, rounded up once; X if G is 0". The net N is the gross less the losses, or 0 if they are larger. Where it
// equals G, as it does without losses and at G = 0, that is the whole X; where it is 0 with G above it, two fifths of X; a share is
// worked out only between the two. At N = 0 the gross is asked before two fifths are given, since at G = 0 it is X.
#[tactic(auto, using(crate::proofs::Ends::at_whole, crate::proofs::Ends::at_two_fifths))]
pub fn weighted(x: u64, gross: u64, losses: u64) -> u64
    requires { gross < 2 ^ 59 }
    ensures { result ≡ weighted_of x gross (gross - losses) }
{
    if losses < gross {
        if losses == 0 {
            x
        } else {
            by_share::<false>(x, gross, gross - losses)
        }
    } else {
        if gross == 0 { x } else { two_fifths(x) }
    }
}

// Rounded up: of the fives in x, and of what is left over them, since 2x need not fit 64 bits. With 4 on top one division will do, where
// `div_ceil` asks for the remainder besides.
fn two_fifths(x: u64) -> u64
    ensures { result ≡ ceil (2 * x) 5 }
{
    2 * (x / 5) + (2 * (x % 5) + 4) / 5
}

// N is never above G, and so a share never above the whole.
#[tactic(auto, using(crate::proofs::Ends::from_share))]
pub fn by_share<const TO_ZERO: bool>(x: u64, gross: u64, net: u64) -> u64
    requires { (0 < gross) × ((gross < 2 ^ 59) × (net ≤ gross)) }
    ensures { result ≡ weighted_of x gross net }
{
    let kept = Fraction {
        p: 2 * gross + 3 * net,
        q: 5 * gross,
    };
    kept.of::<TO_ZERO>(x).rounded_up()
}

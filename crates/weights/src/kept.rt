// What stays in of a written credit's add-on (document 01, "Weighing a set"; request A.6).
ghost use Rattle.std.specs.Prelude.{◌≡◌, ◌*◌, ◌^◌, ◌≤◌, ◌<◌, min};
ghost use Rattle.rules.specs.Weigh.{kept_in};
ghost use Rattle.rules.specs.Weighted.{ceil};

// "the add-on times covered amount over effective notional, rounded up": so much of it, and all of it where that is more. An add-on is at
// most 100 per thousand of its notional. A credit is closed before its covers are known to fit, so that they may come to more than the
// notional, and the product then need not fit 64 bits. The test for no cover only saves the division.
#[tactic(auto, using(rules::proofs::Kept::kept_some, rules::proofs::Kept::kept_rate, rules::proofs::Kept::kept_within, rules::proofs::Kept::kept_beyond))]
pub fn kept_in(add_on: u64, covered: u64, notional: u64) -> u64
    requires { (add_on ≤ 100 * notional) × (notional < 2 ^ 27) }
    ensures { result ≡ min add_on (kept_in add_on covered notional) }
{
    if covered == 0 {
        return 0;
    }
    if notional <= covered {
        return add_on;
    }
    divided_up(add_on * covered, notional)
}

// x / y rounded up, and not by `div_ceil`: the compiler puts a branch before a division of 64 bits, on whether 32 will do, and add-ons of 0 among others make that a
// bad guess. With 2 ^ 32 times the divisor on top, which comes off again, 32 bits never do.
#[tactic(auto, using(crate::proofs::Proportion::raised))]
fn divided_up(x: u64, y: u64) -> u64
    requires { (0 < y) × ((x < 2 ^ 63) × (y < 2 ^ 27)) }
    ensures { result ≡ ceil x y }
{
    (x + (0x100000000 * y + (y - 1))) / y - 0x100000000
}

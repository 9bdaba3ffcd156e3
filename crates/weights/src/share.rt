// "the share of a number is twice the share of its half, remainder carried, plus one part where it is odd": no product here is
// wider than 64 bits.
ghost use Rattle.std.specs.Prelude.{true, false, ◌≡◌, ◌+◌, ◌*◌, ◌/◌, ◌%◌, ◌^◌, ◌≤◌, ◌<◌, min};

// x * p / q and x * p % q
#[derive(Clone, Copy, Debug, PartialEq, Eq)]
pub struct Parts {
    pub quotient: u64,
    pub remainder: u64,
}

impl Parts {
    // A share rounded up.
    pub fn rounded_up(self) -> u64
        requires { self.quotient + min 1 self.remainder < 2 ^ 64 }
        ensures { result ≡ self.quotient + min 1 self.remainder }
    {
        if self.remainder == 0 {
            return self.quotient;
        }
        self.quotient + 1
    }
}

// p parts of q: never more than the whole, and small enough that a remainder can be doubled and a part be added to it.
#[derive(Clone, Copy)]
pub struct Fraction {
    pub p: u64,
    pub q: u64,
    ghost proper: { (p ≤ q) × ((0 < q) × (q < 2 ^ 62)) },
}

impl Fraction {
    // The share of a number: at once where that will do, as it does for most sets, else by halves. A function of its own, since the compiler
    // puts none that calls itself into its callers.
    pub fn of<const TO_ZERO: bool>(self, x: u64) -> Parts
        ensures { (result.quotient ≡ x * self.p / self.q) × (result.remainder ≡ x * self.p % self.q) }
    {
        if self.ends::<TO_ZERO>(x) {
            return self.at_once(x);
        }
        self.by_halves::<TO_ZERO>(x)
    }

    // The halving ends where the product fits 64 bits, or at zero alone, as document 01 words it. The limit is worked out where it is
    // compared: so the compiler makes it the product's own test and divides nothing.
    #[tactic(auto, using(crate::proofs::Division::product_le))]
    fn ends<const TO_ZERO: bool>(self, x: u64) -> bool
        ensures fits { result ≡ true → x * self.p < 2 ^ 64 }
        ensures at_zero { result ≡ false → 0 < x }
    {
        if TO_ZERO {
            x == 0
        } else {
            x <= u64::MAX / self.q
        }
    }

    fn by_halves<const TO_ZERO: bool>(self, x: u64) -> Parts
        ensures { (result.quotient ≡ x * self.p / self.q) × (result.remainder ≡ x * self.p % self.q) }
    {
        if self.ends::<TO_ZERO>(x) {
            return self.at_once(x);
        }
        self.doubled(self.by_halves::<TO_ZERO>(x / 2), x)
    }

    // The share of x from that of its half. It has no branch: the part of an odd x is counted 0 or 1 times.
    #[tactic(auto, using(crate::proofs::Division::step))]
    fn doubled(self, half: Parts, x: u64) -> Parts
        requires { (half.quotient ≡ x / 2 * self.p / self.q) × (half.remainder ≡ x / 2 * self.p % self.q) }
        ensures { (result.quotient ≡ x * self.p / self.q) × (result.remainder ≡ x * self.p % self.q) }
    {
        let carried = 2 * half.remainder + x % 2 * self.p;
        Parts {
            quotient: 2 * half.quotient + carried / self.q,
            remainder: carried % self.q,
        }
    }

    fn at_once(self, x: u64) -> Parts
        requires { x * self.p < 2 ^ 64 }
        ensures { (result.quotient ≡ x * self.p / self.q) × (result.remainder ≡ x * self.p % self.q) }
    {
        let product = x * self.p;
        Parts {
            quotient: product / self.q,
            remainder: product % self.q,
        }
    }
}

// The grades of a basket's names, in one pass over their words. The n-th worst grade does not qualify exactly where at least n grades do not, so
// they are counted and not sorted.
ghost use Rattle.std.specs.Prelude.{◌≡◌, suc, ◌≤◌, ltb};
ghost use Rattle.baskets.specs.Grades.{counted_at, looked_at, with_grade};

use rules::limits;
use words::amount::size;

// The bits that any of their words has, which show a kind, a sign or a size that no grade has; and how many do not qualify, equal ones
// separately.
#[derive(Clone, Copy, Default)]
pub struct Grades {
    pub all: u32,
    pub failing: u32,
}

impl Grades {
    // With one more; it counts as one at most.
    pub fn with(self, grade: u32) -> Grades
        requires { self.failing ≤ 63 }
        ensures { (result ≡ with_grade self grade) × (result.failing ≤ suc self.failing) }
    {
        Grades {
            all: self.all | grade,
            failing: self.failing + u32::from(size(grade) > limits::QUALIFYING_GRADE),
        }
    }
}

// How many of the words that are left behind the amounts are looked at: where so many are left, as many as a basket may have names. Their own
// count is as good as random, and a processor would guess the end of the loop wrong. A count beyond 32 is refused, but its grades may have a
// cause that comes before.
pub fn looked_at(names: usize, left: usize) -> usize
    ensures { result ≡ looked_at names left }
{
    left.min(names.max(limits::NAMES as usize))
}

// A word behind the last name counts as 0, without a branch: bit 31 is set where i has come to the count of names.
pub fn counted(w: u32, i: usize, names: usize) -> u32
    requires { (i ≤ 63) × (names ≤ 63) }
    ensures { result ≡ counted_at names i w }
{
    let behind = (i as u32 + 0x80000000 - names as u32) >> 31;
    w * (1 - behind)
}

// The n-th worst qualifies where fewer than n do not.
pub fn nth_qualifies(failing: u32, nth: u32) -> bool
    ensures { result ≡ ltb failing nth }
{
    failing < nth
}

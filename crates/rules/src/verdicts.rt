// The verdicts: "Verdict 2 if row 21 is 0; 0 if 100 times row 20 is at least 3 times row 21; otherwise 1", and "3 on refusal".
ghost use Rattle.std.specs.Prelude.{◌≡◌, Some};
ghost use Rattle.std.specs.Fmt.{decimal};
ghost use Rattle.rules.specs.Numbers.{verdict_number};

use std::fmt;

#[derive(Clone, Copy, Debug, PartialEq, Eq)]
pub enum Verdict {
    Met,
    Missed,
    NoExposure,
}

// The paper's number.
impl From<Verdict> for u32 {
    ghost from_gives = { λ v n. n ≡ verdict_number v };

    fn from(v: Verdict) -> u32 {
        match v {
            Verdict::Met => 0,
            Verdict::Missed => 1,
            Verdict::NoExposure => 2,
        }
    }
}

impl fmt::Display for Verdict {
    ghost output = { λ v. Some (decimal (verdict_number v)) };

    fn fmt<W: fmt::Write>(&self, f: &mut fmt::Formatter<W>) -> fmt::Result {
        write!(f, "{}", u32::from(*self))
    }
}

// "3 on refusal", where an answer of one number has a verdict's place.
pub const REFUSED: u32 = 3;

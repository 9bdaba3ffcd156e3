// Row 22 and the verdict, of Tier 1, in units, and of the exposure, row 21, in thousandths.
ghost use Rattle.std.specs.Prelude.{◌≡◌, pos};
ghost use Rattle.rules.specs.Numbers.{verdict_number};
ghost use Rattle.rules.specs.Ratio.{ratio_of, tier1_of, verdict_of};

use crate::units::thousandths;
use rules::Tier1;
use rules::verdicts::Verdict;

// "basis points, 10,000 times row 20 over row 21 rounded towards minus infinity; 0 if row 21 is 0". Below 0 the magnitude is
// rounded up: cut towards zero, a negative ratio would come out too high.
#[tactic(auto, using(rules::proofs::RatioCases::ratio_none, rules::proofs::RatioCases::ratio_gain, rules::proofs::RatioCases::ratio_loss))]
pub fn ratio(tier1: Tier1, exposure: u64) -> i64
    ensures { result ≡ ratio_of (tier1_of tier1.gain tier1.loss) (pos exposure) }
{
    if exposure == 0 {
        return 0;
    }
    if tier1.gain < tier1.loss {
        let missing = thousandths(tier1.loss - tier1.gain);
        return -((10000 * missing).div_ceil(exposure) as i64);
    }
    let available = thousandths(tier1.gain - tier1.loss);
    (10000 * available / exposure) as i64
}

// "Verdict 2 if row 21 is 0; 0 if 100 times row 20 is at least 3 times row 21; otherwise 1". Three times the exposure may not fit
// 64 bits, so that a hundred times Tier 1 is divided instead.
#[tactic(auto, using(rules::proofs::RatioCases::verdict_none, rules::proofs::RatioCases::verdict_met, rules::proofs::RatioCases::verdict_missed))]
pub fn verdict(tier1: Tier1, exposure: u64) -> Verdict
    ensures { verdict_number result ≡ verdict_of (tier1_of tier1.gain tier1.loss) (pos exposure) }
{
    if exposure == 0 {
        return Verdict::NoExposure;
    }
    if tier1.gain < tier1.loss {
        return Verdict::Missed;
    }
    let available = thousandths(tier1.gain - tier1.loss);
    if exposure <= 100 * available / 3 {
        Verdict::Met
    } else {
        Verdict::Missed
    }
}

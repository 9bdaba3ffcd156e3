// Request A.2, "A year is a calendar year": the days from a reporting date to the ends of its bands. The definition is
// specs/Calendar.antt of the crate `rules`; what is claimed of it besides is in specs/Claims.antt.
#![tactic(auto)]

ghost use Rattle.std.specs.Prelude.{◌≡◌, ◌+◌, ◌*◌, ◌≤◌};
ghost use Rattle.rules.specs.Calendar.{bands_of, days_of, last_date, leap_days};

use rules::Bands;

// Day 0 is 1 January of this year, a leap year.
const FIRST_YEAR: u32 = 2000;
// A year without its leap day.
const YEAR: u32 = 365;
// Four years, the first of them a leap year. Counted in quarters of a day each has this length: a day is of the year in which its
// first quarter lies, which gives 366, 365, 365 and 365 days.
const CYCLE: u32 = 4 * YEAR + 1;
// The day of the year that is 29 February, or 1 March where there is none; 1 January is day 0.
const LEAP_DAY: u32 = 59;
// Where the years change on that day: the quarters of such a year that are over when day 0 begins.
const SINCE_FEBRUARY: u32 = CYCLE - 4 * LEAP_DAY;

// How many 29ths of February a year has.
#[tactic(auto, unfolding(rules::specs::Calendar::leap_days))]
pub fn leap_days(year: u32) -> u32
    ensures { (result ≡ leap_days year) × (result ≤ 1) }
{
    u32::from(year % 4 == 0 && (year % 100 != 0 || year % 400 == 0))
}

// 365 days a year, and the leap days of as many years, from a first one on.
#[tactic(auto, using(crate::proofs::Periods::none_of, crate::proofs::Periods::one_more))]
fn days_of_years(first: u32, years: u32) -> u32
    requires { (first ≤ 9999) × (years ≤ 5) }
    ensures { result ≡ 365 * years + days_of leap_days first years }
{
    let mut days = YEAR * years;
    for k in 0..years {
        days += leap_days(first + k);
    }
    days
}

// "A band ends on the same calendar day one or five years later, 29 February going to 28 February where there is none": the first of the leap
// days is that of the next end of February. 29 February has this end behind it, as it goes to the 28th.
#[tactic(auto, using(crate::proofs::Ends::bands_are))]
pub fn bands_of_date(date: u32) -> Bands
    requires { date ≤ last_date }
    ensures { result ≡ bands_of date }
{
    let year = FIRST_YEAR + (4 * date + SINCE_FEBRUARY) / CYCLE;
    Bands {
        short: days_of_years(year, 1),
        medium: days_of_years(year, 5),
    }
}

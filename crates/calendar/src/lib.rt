// Which dates exist and which weekday each has: the Gregorian calendar from 2000 to 2099, where every fourth year is a leap year.
#![tactic(auto)]

ghost use Rattle.std.specs.Prelude.{◌+◌, ◌≤◌, ◌<◌, ◌≡◌};
ghost use Rattle.calendar.specs.Dates.{days_in, days_of_months, days_of_years, weekday_of, is_date};

// The days of a common year's first months, by their number.
const FIRST_MONTHS: [u16; 13] = [0, 31, 59, 90, 120, 151, 181, 212, 243, 273, 304, 334, 365];

// The days of a year's first months.
fn days_of_months(year: u8, months: u8) -> u16
    requires { (year < 100) × (months ≤ 12) }
    ensures { (result ≡ days_of_months (2000 + year) months) × (result ≤ 366) }
{
    let has_leap_day = 2 <= months && year % 4 == 0;
    FIRST_MONTHS[usize::from(months)] + u16::from(has_leap_day)
}

// The days of the first years from 2000 on.
#[tactic(auto, using(crate::proofs::Formulas::years_by_lem))]
fn days_of_years(years: u8) -> u16
    requires { years < 100 }
    ensures { (result ≡ days_of_years years) × (result ≤ 36525) }
{
    let years = u16::from(years);
    365 * years + (years + 3) / 4
}

#[tactic(auto, using(crate::proofs::Formulas::months_and_next))]
fn days_in(year: u8, month: u8) -> u16
    requires { (year < 100) × (0 < month) × (month ≤ 12) }
    ensures { result ≡ days_in (2000 + year) month }
{
    days_of_months(year, month) - days_of_months(year, month - 1)
}

fn weekday_of(year: u8, month: u8, day: u8) -> u16
    requires { (year < 100) × (0 < month) × (month ≤ 12) × (0 < day) }
    ensures { result ≡ weekday_of year month day }
{
    let before = days_of_years(year) + days_of_months(year, month - 1);
    1 + (5 + before + (u16::from(day) - 1)) % 7
}

// Whether the day exists in its month and the weekday is its own.
pub fn is_date(day: u8, weekday: u8, month: u8, year: u8) -> bool
    ensures { result ≡ is_date day weekday month year }
{
    year <= 99
        && (1..=12).contains(&month)
        && (1..=days_in(year, month)).contains(&u16::from(day))
        && u16::from(weekday) == weekday_of(year, month, day)
}

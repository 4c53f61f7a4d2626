// The day type: days as numbers, 0 being 1 January 2000, and their Gregorian dates.
#![tactic(auto)]

ghost use Rattle.std.specs.Prelude.{◌≡◌, ◌+◌, ◌≤◌, ◌<◌};
ghost use Rattle.calendar.specs.Gregorian.{leap_year, year_length, month_length, date_at, days_before_year, days_before_month};
ghost use Rattle.calendar.specs.Conversions.{last_number, is_date, to_date, from_date, InCentury, IsMonth};

mod limits;

use crate::limits::{FIRST_NUMBER, FIRST_YEAR, LAST_NUMBER, LAST_YEAR};

#[derive(Clone, Copy, PartialEq, Eq, Debug)]
pub struct Date {
    pub year: u32,
    pub month: u32,
    pub day: u32,
}

#[derive(Clone, Copy, PartialEq, Eq, Debug)]
pub struct Day {
    pub number: u32,
}

// The days of a common year before each month, and before the next year.
const DAYS_BEFORE: [u32; 13] = [0, 31, 59, 90, 120, 151, 181, 212, 243, 273, 304, 334, 365];

impl Day {
    // 1 January 2000.
    pub const FIRST: Day = Day {
        number: FIRST_NUMBER,
    };
    // 31 December 2099.
    pub const LAST: Day = Day {
        number: LAST_NUMBER,
    };

    // The date of a day number.
    #[tactic(auto, using(crate::proofs::RoundTrip::date_parts), unfolding(crate::specs::Conversions::to_date))]
    pub fn to_date(number: u32) -> Option<Date>
        ensures { result ≡ to_date number }
    {
        if !(Day::FIRST.number..=Day::LAST.number).contains(&number) {
            return None;
        }
        let year = Year::of_day(number);
        let day_of_year = number - year.days_before();
        let month = year.month_of(day_of_year);
        let day = day_of_year - year.days_before_month(month) + 1;
        Some(Date {
            year: year.number,
            month,
            day,
        })
    }

    // The day of a date.
    #[tactic(auto, using(crate::proofs::RoundTrip::tested, crate::proofs::RoundTrip::number_within), unfolding(crate::specs::Conversions::is_date, crate::specs::Conversions::from_date, crate::specs::Gregorian::day_number))]
    pub fn from_date(date: Date) -> Option<Day>
        ensures { result ≡ from_date date }
    {
        if !is_date(date) {
            return None;
        }
        let year = Year { number: date.year };
        let years = Day::FIRST.number + year.days_before();
        let before = years + year.days_before_month(date.month);
        Some(Day {
            number: before + (date.day - 1),
        })
    }
}

// A date from 1 January 2000 to 31 December 2099.
#[tactic(auto, unfolding(crate::specs::Conversions::is_date))]
fn is_date(date: Date) -> bool
    ensures { result ≡ is_date date }
{
    (FIRST_YEAR..=LAST_YEAR).contains(&date.year)
        && (1..=12).contains(&date.month)
        && (1..=Year { number: date.year }.month_length(date.month)).contains(&date.day)
}

// A year from 2000 to 2099.
#[derive(Clone, Copy)]
struct Year {
    number: u32,
    ghost in_century: { InCentury number },
}

impl Year {
    // The year that a day falls in: four years have 1,461 days, the first of them 366.
    fn of_day(number: u32) -> Year
        requires { number ≤ last_number }
        ensures { result.number ≡ (date_at number).year }
    {
        let rest = number % 1_461;
        let first = FIRST_YEAR + number / 1_461 * 4;
        if rest < 366 {
            return Year { number: first };
        }
        Year {
            number: first + (rest - 1) / 365,
        }
    }

    // The days from 1 January 2000 to the year's first.
    #[tactic(auto, using(crate::proofs::Years::days_before_year_lem))]
    fn days_before(self) -> u32
        ensures { result ≡ days_before_year self.number }
    {
        let years = self.number - FIRST_YEAR;
        years * 365 + (years + 3) / 4
    }

    // The month that a day of the year falls in.
    fn month_of(self, day_of_year: u32) -> u32
        requires { day_of_year < year_length self.number }
        ensures { result ≡ (date_at (days_before_year self.number + day_of_year)).month }
    {
        (1..12)
            .find(|month| day_of_year < self.days_before_month(*month + 1))
            .unwrap_or(12)
    }

    // The days of a month.
    #[tactic(auto, using(crate::proofs::Months::next_month))]
    fn month_length(self, month: u32) -> u32
        requires { IsMonth month }
        ensures { result ≡ month_length self.number month }
    {
        self.days_before_month(month + 1) - self.days_before_month(month)
    }

    // The days from the year's first to the month's first; month 13 is the next year's first.
    #[tactic(auto, using(crate::proofs::Table::by_table))]
    fn days_before_month(self, month: u32) -> u32
        requires { (1 ≤ month) × (month ≤ 13) }
        ensures { result ≡ days_before_month self.number month }
    {
        let common = DAYS_BEFORE[(month - 1) as usize];
        if month <= 2 {
            return common;
        }
        if self.is_leap() { common + 1 } else { common }
    }

    // Every fourth of the years 2000 to 2099 is a leap year, the first of them too.
    #[tactic(auto, using(crate::proofs::Years::leap_in_century))]
    fn is_leap(self) -> bool
        ensures { result ≡ leap_year self.number }
    {
        self.number % 4 == 0
    }
}

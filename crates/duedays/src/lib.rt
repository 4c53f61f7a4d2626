// Closed days, in names holidays, and the due days that banks can keep: request a of document 02.
#![tactic(auto)]

ghost use Rattle.std.specs.Prelude.{◌≡◌, true, ◌≤◌, leb, is_some, IfSome};
ghost use Rattle.lists.specs.Every.{every};
ghost use Rattle.duedays.specs.Limits.{last_call_day, last_due_day};
ghost use Rattle.duedays.specs.DueDays.{rising, list_allowed, due_day};

pub mod limits;

use crate::limits::{LAST_DUE_DAY, MOST_LISTED, TERM};

// A list of closed days within its bounds.
#[derive(Clone, Copy)]
pub struct Holidays<'a> {
    pub days: &'a [u16],
    ghost allowed: { list_allowed days.now ≡ true },
}

impl<'a> Holidays<'a> {
    // None for a list that breaks its bounds: 14.
    pub fn of(days: &'a [u16]) -> Option<Holidays<'a>>
        ensures allowed { is_some result ≡ list_allowed days.now }
        ensures list { IfSome result (λ holidays. holidays.days.now ≡ days.now) }
    {
        if is_list_allowed(days) {
            Some(Holidays { days })
        } else {
            None
        }
    }

    // The first day from the obligation day + 30 on that isn't listed. The list rises, so days that are listed in a row stand in a row.
    pub fn due_day(self, day: u16) -> u16
        requires { day ≤ last_call_day }
        ensures { result ≡ due_day self.entry.days.now day }
    {
        let mut due = day + TERM;
        let at = self.days.partition_point(|listed| *listed < due);
        for listed in &self.days[at..] {
            if *listed != due {
                break;
            }
            due += 1;
        }
        due
    }
}

// 14: whether a list is within its bounds.
#[tactic(auto, unfolding(crate::specs::DueDays::list_allowed))]
pub fn is_list_allowed(holidays: &[u16]) -> bool
    ensures { result ≡ list_allowed holidays.now }
{
    holidays.len() <= MOST_LISTED && are_days(holidays) && is_rising(holidays)
}

// No listed day is past the calendar. Neither this walk nor the next stops early, so that the compiler compares several days at once.
fn are_days(holidays: &[u16]) -> bool
    ensures { result ≡ every (λ day. leb day last_due_day) holidays.now }
{
    let mut days = true;
    for day in holidays {
        days &= *day <= LAST_DUE_DAY;
    }
    days
}

// Each listed day is after the one before it.
fn is_rising(holidays: &[u16]) -> bool
    ensures { result ≡ rising holidays.now }
{
    let mut rises = true;
    for i in 1..holidays.len() {
        rises &= holidays[i - 1] < holidays[i];
    }
    rises
}

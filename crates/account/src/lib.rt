// A gas account: its status, what it holds, the calls made on it and their answers. With each call comes the list of closed days,
// in names holidays.
#![tactic(auto)]

ghost use Rattle.std.specs.Prelude.{◌≡◌};
ghost use Rattle.intake.specs.declared.Call.TheVariants.{Opening, Reading, Missed, Absent, Exchange, Disconnection};
ghost use Rattle.intake.specs.declared.Call.TheVariants.{Reconnection, Cancellation, Payment, StoppedCancellation};
ghost use Rattle.account.specs.Calls.{new_account};
ghost use Rattle.account.specs.Outcomes.{outcome};

pub mod calls;
pub mod whole;

use crate::calls::decline;
use crate::whole::WholeAccount;
use common::Refusal;
use duedays::Holidays;
use intake::{Call, Status};
use ledger::Ledger;
use meter::{Estimates, Meter, Volumes};
use tariff::Fuel;

// A household's account.
#[derive(Clone, Copy, PartialEq, Eq, Debug)]
pub struct Account {
    pub status: Status,
    // Day of the latest accepted call.
    pub latest: u16,
    pub meter: Meter,
    pub estimates: Estimates,
    pub ledger: Ledger,
}

// `number` is 0 where the call was accepted; where it was declined it says why, and every other field is 0.
#[derive(Clone, Copy, PartialEq, Eq, Debug, Default)]
pub struct Answer {
    pub number: u8,
    pub estimated: u32,
    pub volumes: Volumes,
    pub net: i32,
    pub interest: u64,
    pub unpaid: u64,
    pub credit: u64,
}

// What a call hands back.
#[derive(Clone, Copy, PartialEq, Eq, Debug)]
pub struct Outcome {
    pub account: Account,
    pub answer: Answer,
}

impl Account {
    pub fn new() -> Account
        ensures { result ≡ new_account }
    {
        Account {
            status: Status::New,
            latest: 0,
            meter: Meter::default(),
            estimates: Estimates::default(),
            ledger: Ledger::new(),
        }
    }

    // 01: opening
    pub fn begin_supply(mut self, holidays: &[u16], day: u16, reading: u32, digits: u8) -> Outcome
        ensures { result ≡ outcome holidays.now self (Opening day reading digits) }
    {
        self.apply(
            holidays,
            Call::Opening {
                day,
                reading,
                digits,
            },
        )
    }

    // 02: reading
    pub fn read_meter(mut self, holidays: &[u16], day: u16, reading: u32, fuel: Fuel) -> Outcome
        ensures { result ≡ outcome holidays.now self (Reading day reading fuel) }
    {
        self.apply(holidays, Call::Reading { day, reading, fuel })
    }

    // 03: missed reading
    pub fn miss_reading(mut self, holidays: &[u16], day: u16, fuel: Fuel) -> Outcome
        ensures { result ≡ outcome holidays.now self (Missed day fuel) }
    {
        self.apply(holidays, Call::Missed { day, fuel })
    }

    // 04: missed reading, absence known
    pub fn note_absence(mut self, holidays: &[u16], day: u16, fuel: Fuel) -> Outcome
        ensures { result ≡ outcome holidays.now self (Absent day fuel) }
    {
        self.apply(holidays, Call::Absent { day, fuel })
    }

    // 05: meter change
    pub fn exchange_meter(
        mut self,
        holidays: &[u16],
        day: u16,
        old: u32,
        new: u32,
        digits: u8,
    ) -> Outcome
        ensures { result ≡ outcome holidays.now self (Exchange day old new digits) }
    {
        self.apply(
            holidays,
            Call::Exchange {
                day,
                old,
                new,
                digits,
            },
        )
    }

    // 06: stop
    pub fn disconnect(mut self, holidays: &[u16], day: u16, reading: u32, fuel: Fuel) -> Outcome
        ensures { result ≡ outcome holidays.now self (Disconnection day reading fuel) }
    {
        self.apply(holidays, Call::Disconnection { day, reading, fuel })
    }

    // 07: resumption
    pub fn reconnect(mut self, holidays: &[u16], day: u16, reading: u32, digits: u8) -> Outcome
        ensures { result ≡ outcome holidays.now self (Reconnection day reading digits) }
    {
        self.apply(
            holidays,
            Call::Reconnection {
                day,
                reading,
                digits,
            },
        )
    }

    // 08: cancellation
    pub fn cancel(mut self, holidays: &[u16], day: u16, reading: u32, fuel: Fuel) -> Outcome
        ensures { result ≡ outcome holidays.now self (Cancellation day reading fuel) }
    {
        self.apply(holidays, Call::Cancellation { day, reading, fuel })
    }

    // 09: payment
    pub fn pay(mut self, holidays: &[u16], day: u16, yen: u32) -> Outcome
        ensures { result ≡ outcome holidays.now self (Payment day yen) }
    {
        self.apply(holidays, Call::Payment { day, yen })
    }

    // 0a: cancellation while stopped
    pub fn cancel_stopped(mut self, holidays: &[u16], day: u16) -> Outcome
        ensures { result ≡ outcome holidays.now self (StoppedCancellation day) }
    {
        self.apply(holidays, Call::StoppedCancellation { day })
    }

    // Any of the ten.
    pub fn apply(mut self, holidays: &[u16], call: Call) -> Outcome
        ensures { result ≡ outcome holidays.now self call }
    {
        let Some(holidays) = Holidays::of(holidays) else {
            return decline(self, Refusal::ClosedDays.number());
        };
        let Some(account) = WholeAccount::of(self) else {
            return decline(self, Refusal::NotWhole.number());
        };
        account.answer(holidays, call)
    }
}

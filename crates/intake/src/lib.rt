// A call, the head of the account that it comes to, and numbers 1 to 11, by which it is declined for what these two show.
#![tactic(auto)]

pub mod limits;
pub mod periods;
pub mod refusals;
pub mod statuses;

use meter::Meter;
use tariff::Fuel;

// `start` is the first day of the period that runs, `stop` the day of the stop.
#[derive(Clone, Copy, PartialEq, Eq, Debug)]
pub enum Status {
    New,
    Supplied { start: u16 },
    Stopped { stop: u16 },
    Cancelled,
}

#[derive(Clone, Copy, PartialEq, Eq, Debug)]
pub enum Call {
    // 01: opening
    Opening {
        day: u16,
        reading: u32,
        digits: u8,
    },
    // 02: reading
    Reading {
        day: u16,
        reading: u32,
        fuel: Fuel,
    },
    // 03: missed reading
    Missed {
        day: u16,
        fuel: Fuel,
    },
    // 04: missed reading, absence known
    Absent {
        day: u16,
        fuel: Fuel,
    },
    // 05: meter change
    Exchange {
        day: u16,
        old: u32,
        new: u32,
        digits: u8,
    },
    // 06: stop
    Disconnection {
        day: u16,
        reading: u32,
        fuel: Fuel,
    },
    // 07: resumption
    Reconnection {
        day: u16,
        reading: u32,
        digits: u8,
    },
    // 08: cancellation
    Cancellation {
        day: u16,
        reading: u32,
        fuel: Fuel,
    },
    // 09: payment
    Payment {
        day: u16,
        yen: u32,
    },
    // 0a: cancellation while stopped
    StoppedCancellation {
        day: u16,
    },
}

// The numbers of an account without its estimates and its ledger. `latest` is the day of the latest accepted call, `standing` how many estimates stand.
#[derive(Clone, Copy, PartialEq, Eq, Debug)]
pub struct Head {
    pub status: Status,
    pub latest: u16,
    pub meter: Meter,
    pub standing: usize,
}

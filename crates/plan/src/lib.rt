// What a call plans on the numbers of an account: what it makes of status, meter and estimates, and what it asks of the ledger.
#![tactic(auto)]

pub mod plans;

use intake::Head;
use ledger::Entry;
use tariff::Fuel;

// What becomes of the estimates. One that is added closes on the plan's day, and its volume and what is charged for it are the plan's.
#[derive(Clone, Copy, PartialEq, Eq, Debug)]
pub enum Change {
    Kept,
    Cleared,
    Added { absent: bool, days: u16, fuel: Fuel },
}

// What follows a reading: the next period, a stop, or the end.
#[derive(Clone, Copy, PartialEq, Eq, Debug)]
pub enum Then {
    Goes,
    Stops,
    Ends,
}

// What 02, 06 and 08 have in common, and what follows.
#[derive(Clone, Copy, PartialEq, Eq, Debug)]
pub struct ClosingRead {
    pub day: u16,
    pub reading: u32,
    pub fuel: Fuel,
    pub then: Then,
}

// What a call that passes makes of the head and the estimates, and what it asks of the ledger. The last three are numbers of the answer.
#[derive(Clone, Copy, PartialEq, Eq, Debug)]
pub struct Plan {
    pub head: Head,
    pub change: Change,
    pub entry: Option<Entry>,
    pub estimated: u32,
    pub count: usize,
    pub net: i32,
}

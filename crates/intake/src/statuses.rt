// What a status tells: which it is, and the day that it holds.
ghost use Rattle.std.specs.Prelude.{◌≡◌};
ghost use Rattle.intake.specs.Statuses.{is_new, is_cancelled, start_of, supplied_since, stopped_on};

use crate::Status;
use common::Refusal;

impl Status {
    pub fn is_new(self) -> bool
        ensures { result ≡ is_new self }
    {
        matches!(self, Status::New)
    }

    pub fn is_cancelled(self) -> bool
        ensures { result ≡ is_cancelled self }
    {
        matches!(self, Status::Cancelled)
    }

    // The first day of the period that runs. None runs but under supply: 1.
    pub fn supplied_since(self) -> Result<u16, Refusal>
        ensures { result ≡ supplied_since self }
    {
        let Status::Supplied { start } = self else {
            return Err(Refusal::Status);
        };
        Ok(start)
    }

    // The day of the stop. There is one on a stopped account alone: 1.
    pub fn stopped_on(self) -> Result<u16, Refusal>
        ensures { result ≡ stopped_on self }
    {
        let Status::Stopped { stop } = self else {
            return Err(Refusal::Status);
        };
        Ok(stop)
    }

    // The first day of the period of a call that passed, which is under supply. 0 on another account.
    pub fn start(self) -> u16
        ensures { result ≡ start_of self }
    {
        if let Status::Supplied { start } = self {
            start
        } else {
            0
        }
    }
}

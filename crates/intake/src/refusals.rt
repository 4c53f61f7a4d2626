// When a call is declined for what the head and the call show: numbers 1 to 11, in document 01's order.
ghost use Rattle.std.specs.Prelude.{◌≡◌, ◌≤◌, true, ltb, IfOk};
ghost use Rattle.common.specs.Refusals.{told};
ghost use Rattle.meter.specs.Dial.{OnDial};
ghost use Rattle.intake.specs.Limits.{most_volume, fuel_allowed};
ghost use Rattle.intake.specs.Periods.{days_of};
ghost use Rattle.intake.specs.Refusals.{unless, begins, advances, reading_refusal, miss_refusal, dial_refusal, exchange_refusal, payment_refusal};
ghost use Rattle.intake.specs.Statuses.{is_supplied, start_of};
ghost use Rattle.intake.specs.Heads.{HeadBounds};

use crate::Head;
use crate::limits::{
    MOST_MISSES, MOST_VOLUME, digits_allowed, fuel_allowed, on_dial, payment_allowed,
};
use common::Refusal;
use duedays::limits::LAST_CALL_DAY;
use meter::{Meter, dial_advance, within_half};
use tariff::Fuel;

impl Head {
    // 02, 06 and 08: a reading closes the period
    pub fn allow_reading(self, day: u16, reading: u32, fuel: Fuel) -> Result<(), Refusal>
        requires { HeadBounds self }
        ensures { told result ≡ reading_refusal self day reading fuel }
    {
        let meter = self.meter;
        let start = self.allow_supplied(day)?;
        if !on_dial(meter.digits, reading) {
            return Err(Refusal::OffDial);
        }
        allow_closing(start, day, fuel)?;
        allow_advance(meter, reading)
    }

    // 03 and 04: a missed reading
    #[tactic(auto, using(crate::proofs::Passed::begins_then, crate::proofs::Passed::closes_then))]
    pub fn allow_miss(self, day: u16, fuel: Fuel) -> Result<(), Refusal>
        ensures { told result ≡ miss_refusal self day fuel }
    {
        let start = self.allow_supplied(day)?;
        allow_closing(start, day, fuel)?;
        if self.standing >= MOST_MISSES {
            return Err(Refusal::SeventhMiss);
        }
        Ok(())
    }

    // 01 and 07, where the status allows them: supply begins at a dial
    pub fn allow_dial(self, day: u16, reading: u32, digits: u8) -> Result<(), Refusal>
        ensures { told result ≡ dial_refusal true self day reading digits }
    {
        self.allow_day(day)?;
        if !digits_allowed(digits) {
            return Err(Refusal::Digits);
        }
        if !on_dial(digits, reading) {
            return Err(Refusal::OffDial);
        }
        Ok(())
    }

    // 05: meter change
    pub fn allow_exchange(self, day: u16, old: u32, new: u32, digits: u8) -> Result<(), Refusal>
        requires { HeadBounds self }
        ensures { told result ≡ exchange_refusal self day old new digits }
    {
        let meter = self.meter;
        self.allow_supplied(day)?;
        if !digits_allowed(digits) {
            return Err(Refusal::Digits);
        }
        if !on_dial(meter.digits, old) || !on_dial(digits, new) {
            return Err(Refusal::OffDial);
        }
        allow_advance(meter, old)
    }

    // 09: payment
    pub fn allow_payment(self, day: u16, yen: u32) -> Result<(), Refusal>
        ensures { told result ≡ payment_refusal self day yen }
    {
        if self.status.is_new() {
            return Err(Refusal::Status);
        }
        self.allow_day(day)?;
        if !payment_allowed(yen) {
            return Err(Refusal::Payment);
        }
        Ok(())
    }

    // 1 to 3 of calls under supply: the first day of the period that runs
    fn allow_supplied(self, day: u16) -> Result<u16, Refusal>
        ensures tells { told result ≡ begins (is_supplied self.status) self.latest day 0 }
        ensures start { IfOk result (λ start. start ≡ start_of self.status) }
    {
        let start = self.status.supplied_since()?;
        self.allow_day(day)?;
        Ok(start)
    }

    // 2 and 3, in all calls, once the status allows them
    pub fn allow_day(self, day: u16) -> Result<(), Refusal>
        ensures { told result ≡ begins true self.latest day 0 }
    {
        if day > LAST_CALL_DAY {
            return Err(Refusal::LateDay);
        }
        if day < self.latest {
            return Err(Refusal::EarlyDay);
        }
        Ok(())
    }
}

// 6 and 7, where the period began on `start`
fn allow_closing(start: u16, day: u16, fuel: Fuel) -> Result<(), Refusal>
    ensures { told result ≡ unless (fuel_allowed fuel) 6 (unless (ltb 0 (days_of start day)) 7 0) }
{
    if !fuel_allowed(fuel) {
        return Err(Refusal::FuelPrice);
    }
    if day < start {
        return Err(Refusal::NoDays);
    }
    Ok(())
}

// 9 and 10
#[tactic(auto, using(meter::proofs::Dial::advance_within, meter::proofs::Dial::span_most))]
fn allow_advance(meter: Meter, reading: u32) -> Result<(), Refusal>
    requires on_dial { OnDial meter.digits meter.dial reading }
    requires pool_le_most_volume { meter.pool ≤ most_volume }
    ensures { told result ≡ advances meter reading }
{
    let advance = dial_advance(meter.digits, meter.dial, reading);
    if !within_half(meter.digits, advance) {
        return Err(Refusal::AboveHalfSpan);
    }
    if meter.pool + advance > MOST_VOLUME {
        return Err(Refusal::LargePool);
    }
    Ok(())
}

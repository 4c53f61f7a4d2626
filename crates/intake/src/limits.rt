// The limits that calls keep to, by name, and the tests on them.
ghost use Rattle.std.specs.Prelude.{◌≡◌};
ghost use Rattle.meter.specs.Dial.{Digits};
ghost use Rattle.intake.specs.Limits.{price_allowed, fuel_allowed, digits_allowed, on_dial, payment_allowed};

use meter::dial_span;
use tariff::Fuel;

// 10: the pool and a volume, in m³
pub const MOST_VOLUME: u32 = 99_999;

// 8: misses that stand estimated
pub const MOST_MISSES: usize = meter::MOST_MISSES;

// The days of a period.
pub const MOST_DAYS: u16 = 36_495;

// What is charged for a period, in yen.
pub const MOST_CHARGE: u32 = 100_000_000;

// 4: the digits of a dial
const FEWEST_DIGITS: u8 = 4;

const MOST_DIGITS: u8 = 5;

// 6: a fuel price, in yen
const MOST_FUEL_PRICE: u32 = 300_000;

// 11: a payment, in yen
const MOST_PAYMENT: u32 = 99_999_999;

// 4: a dial has 4 or 5 digits
pub fn digits_allowed(digits: u8) -> bool
    ensures { result ≡ digits_allowed digits }
{
    (FEWEST_DIGITS..=MOST_DIGITS).contains(&digits)
}

// 5: a reading is below its dial's span
pub fn on_dial(digits: u8, reading: u32) -> bool
    requires { Digits digits }
    ensures { result ≡ on_dial digits reading }
{
    reading < dial_span(digits)
}

// 6: both fuel prices are allowed
pub fn fuel_allowed(fuel: Fuel) -> bool
    ensures { result ≡ fuel_allowed fuel }
{
    price_allowed(fuel.lng) && price_allowed(fuel.propane)
}

// A fuel price is at most 300,000 and a multiple of 10.
fn price_allowed(price: u32) -> bool
    ensures { result ≡ price_allowed price }
{
    price <= MOST_FUEL_PRICE && price % 10 == 0
}

// 11: a payment is of 1 to 99,999,999 yen
pub fn payment_allowed(yen: u32) -> bool
    ensures { result ≡ payment_allowed yen }
{
    (1..=MOST_PAYMENT).contains(&yen)
}

// Words that all crates share: why a call is declined, the test on a range of numbers, and laws of tests and cases.
#![tactic(auto)]

ghost use Rattle.std.specs.Prelude.{◌≡◌};
ghost use Rattle.common.specs.Refusals.{number_of};

// Why a call is declined, a case for each number of the documents.
#[derive(Clone, Copy, PartialEq, Eq, Debug)]
pub enum Refusal {
    Status,
    LateDay,
    EarlyDay,
    Digits,
    OffDial,
    FuelPrice,
    NoDays,
    SeventhMiss,
    AboveHalfSpan,
    LargePool,
    Payment,
    ManyItems,
    LargeCredit,
    ClosedDays,
    NotAFrame,
    NotWhole,
}

impl Refusal {
    // The number by which an answer tells it.
    pub fn number(self) -> u8
        ensures { result ≡ number_of self }
    {
        match self {
            Refusal::Status => 1,
            Refusal::LateDay => 2,
            Refusal::EarlyDay => 3,
            Refusal::Digits => 4,
            Refusal::OffDial => 5,
            Refusal::FuelPrice => 6,
            Refusal::NoDays => 7,
            Refusal::SeventhMiss => 8,
            Refusal::AboveHalfSpan => 9,
            Refusal::LargePool => 10,
            Refusal::Payment => 11,
            Refusal::ManyItems => 12,
            Refusal::LargeCredit => 13,
            Refusal::ClosedDays => 14,
            Refusal::NotAFrame => 40,
            Refusal::NotWhole => 41,
        }
    }
}

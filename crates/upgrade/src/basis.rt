// Request e of document 02: the account keeps the basis of missed readings. One kept from before has its last period's volume instead,
// which its holder hands in.
ghost use Rattle.std.specs.Prelude.{◌≡◌};
ghost use Rattle.upgrade.specs.Basis.{with_basis};

use account::Account;
use meter::Meter;

// The account with its last period's volume for the basis.
#[tactic(auto, unfolding(crate::specs::Basis::with_basis))]
pub fn with_basis(account: Account, last_volume: u32) -> Account
    ensures { result ≡ with_basis account last_volume }
{
    Account {
        meter: Meter {
            basis: last_volume,
            ..account.meter
        },
        ..account
    }
}

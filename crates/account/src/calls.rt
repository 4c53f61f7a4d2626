// A call on an account that is known to be whole, by a list that is known to be within its bounds: planned on its head, and entered in
// its ledger once.
ghost use Rattle.std.specs.Prelude.{◌≡◌, List, [], ◌∷◌, ◌++◌, ℕ, ◌<◌, IfSome, length};
ghost use Rattle.meter.specs.Sharing.{volumes_of};
ghost use Rattle.ledger.specs.Entries.{EntryBounds};
ghost use Rattle.intake.specs.Limits.{most_misses};
ghost use Rattle.closing.specs.Closing.{stored_estimates};
ghost use Rattle.plan.specs.Plans.{changed, Room};
ghost use Rattle.account.specs.Calls.{head_of, account_of, standing_estimates, work};
ghost use Rattle.account.specs.Refusals.{refusal};
ghost use Rattle.account.specs.Outcomes.{declined, outcome, OutcomeAs, Concluded};
ghost use Rattle.account.specs.Works.{answer_of, work_of};

use crate::whole::WholeAccount;
use crate::{Account, Answer, Outcome};
use closing::Billing;
use common::Refusal;
use duedays::Holidays;
use intake::{Call, Head};
use lanes::OpenItems;
use ledger::{Ledger, charge_of};
use meter::{Estimate, Estimates, MOST_FINAL, StandingPeriods, Volumes};
use plan::plans::plan_with;
use plan::{Change, Plan};
use tariff::BillingPeriod;

impl WholeAccount {
    // Any call.
    #[tactic(auto, using(crate::proofs::Concluding::outcome_ok, crate::proofs::Concluding::outcome_err))]
    pub fn answer(&self, holidays: Holidays<'_>, call: Call) -> Outcome
        ensures { result ≡ outcome holidays.entry.days.now self.now.account call }
    {
        match self.accept(holidays, call) {
            Ok(outcome) => outcome,
            Err(refusal) => decline(self.account, refusal.number()),
        }
    }

    // What an accepted call comes to: planned, and carried out.
    fn accept(&self, holidays: Holidays<'_>, call: Call) -> Result<Outcome, Refusal>
        ensures { OutcomeAs (refusal holidays.entry.days.now self.now.account call) (work holidays.entry.days.now self.now.account call)
            result }
    {
        let mut volumes = [0u32; MOST_FINAL];
        let plan = plan_with(self.billing(), call, &mut volumes)?;
        self.carry_out(holidays, plan, volumes)
    }

    // Its head and the estimates that stand on it.
    fn billing(&self) -> Billing<'_>
        ensures head { result.head ≡ head_of self.now.account }
        ensures standing { result.standing.periods.now ≡ standing_estimates self.now.account }
    {
        Billing {
            head: Head::from(&self.account),
            standing: self.account.estimates.standing(),
        }
    }

    // What a plan comes to: 12 and 13 look at the ledger after its entry.
    fn carry_out(
        &self,
        holidays: Holidays<'_>,
        plan: Plan,
        volumes: [u32; MOST_FINAL],
    ) -> Result<Outcome, Refusal>
        requires room { Room plan.change self.now.account.estimates.count }
        requires bounds { IfSome plan.entry EntryBounds }
        ensures { (final : List ℕ) → record { count = plan.count; volumes = volumes } ≡ volumes_of final
            → Concluded (work_of holidays.entry.days.now plan final self.now.account.estimates self.now.account.ledger) result }
    {
        let estimates = changed(plan, &self.account.estimates);
        let Some(entry) = plan.entry else {
            let ledger = self.account.ledger;
            return Ok(Outcome {
                account: account_of(plan.head, estimates, ledger),
                answer: answer_of(plan, volumes, 0, ledger.unpaid(), ledger.credit),
            });
        };
        let mut open = OpenItems::of(&self.account.ledger);
        let interest = open.enter(holidays, entry)?;
        Ok(Outcome {
            account: account_of(plan.head, estimates, open.ledger()),
            answer: answer_of(plan, volumes, interest, open.unpaid(), open.credit()),
        })
    }
}

impl From<&Account> for Head {
    ghost from_gives = { λ account head. head ≡ head_of account.now };

    // The head of an account.
    fn from(account: &Account) -> Head {
        Head {
            status: account.status,
            latest: account.latest,
            meter: account.meter,
            standing: account.estimates.count,
        }
    }
}

// A declined call: its number, every other field 0, the account as it was.
pub fn decline(account: Account, number: u8) -> Outcome
    ensures { result ≡ declined account number }
{
    Outcome {
        account,
        answer: Answer {
            number,
            ..Answer::default()
        },
    }
}

// The answer of an accepted call.
fn answer_of(
    plan: Plan,
    volumes: [u32; MOST_FINAL],
    interest: u64,
    unpaid: u64,
    credit: u64,
) -> Answer
    ensures { result ≡ answer_of plan volumes interest unpaid credit }
{
    Answer {
        number: 0,
        estimated: plan.estimated,
        volumes: Volumes {
            count: plan.count,
            volumes,
        },
        net: plan.net,
        interest,
        unpaid,
        credit,
    }
}

// The account of a head, its estimates and its ledger.
pub fn account_of(head: Head, estimates: Estimates, ledger: Ledger) -> Account
    ensures { result ≡ account_of head estimates ledger }
{
    Account {
        status: head.status,
        latest: head.latest,
        meter: head.meter,
        estimates,
        ledger,
    }
}

// What becomes of the estimates.
pub fn changed(plan: Plan, estimates: &Estimates) -> Estimates
    requires { Room plan.change estimates.now.count }
    ensures { result ≡ changed plan estimates.now }
{
    let change = plan.change;
    match change {
        Change::Kept => *estimates,
        Change::Cleared => no_estimates(),
        Change::Added { absent, days, fuel } => {
            let estimate = Estimate {
                absent,
                period: BillingPeriod {
                    days,
                    closing_day: plan.head.latest,
                    fuel,
                },
                volume: plan.estimated,
                charged: charge_of(plan.net) as u32,
            };
            with_estimate(estimates.standing(), estimate)
        }
    }
}

// No estimate stands: every place is blank.
pub fn no_estimates() -> Estimates
    ensures { result ≡ stored_estimates [] }
{
    Estimates::default()
}

// The estimates that stand with one more behind them.
fn with_estimate(standing: StandingPeriods<'_>, estimate: Estimate) -> Estimates
    requires { length standing.periods.now < most_misses }
    ensures { result ≡ stored_estimates (standing.entry.periods.now ++ (estimate ∷ [])) }
{
    let count = standing.periods.len();
    let none = no_estimates();
    let mut periods = none.periods;
    periods[..count].copy_from_slice(standing.periods);
    periods[count] = estimate;
    Estimates {
        count: count + 1,
        periods,
    }
}

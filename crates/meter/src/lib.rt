// Dials and volumes: articles 13 and 14 of the supply terms.
#![tactic(auto)]

ghost use Rattle.std.specs.Prelude.{◌≡◌, [], ◌∷◌, ◌++◌, map, ◌+◌, ◌≤◌, ◌<◌, length};
ghost use Rattle.tariff.specs.Limits.{most_volume};
ghost use Rattle.meter.specs.Limits.{most_misses};
ghost use Rattle.meter.specs.Dial.{span, advance, within_half, Digits, OnDial};
ghost use Rattle.meter.specs.Metering.{pool_to};
ghost use Rattle.meter.specs.Sharing.{estimated, sharers, sharing, Shareable, share_taken, shared_pool, final_volumes, standing, filled_with, AtMostSix};

use tariff::BillingPeriod;

// The most estimates that can stand.
pub const MOST_MISSES: usize = 6;

// The most volumes that one reading makes final: those of the estimates and this period's.
pub const MOST_FINAL: usize = MOST_MISSES + 1;

// A meter under supply: its digits and what its dial showed last; the advance of all meters since the last real closing reading; the
// volume on which a missed reading is estimated.
#[derive(Clone, Copy, PartialEq, Eq, Debug, Default)]
pub struct Meter {
    pub digits: u8,
    pub dial: u32,
    pub pool: u32,
    pub basis: u32,
}

impl Meter {
    // The pool with the advance to a reading of the dial under supply.
    pub fn pool_to(self, reading: u32) -> u32
        requires on_dial { OnDial self.digits self.dial reading }
        requires reading_bound { pool_to self reading ≤ most_volume }
        ensures { result ≡ pool_to self reading }
    {
        self.pool + dial_advance(self.digits, self.dial, reading)
    }
}

// A period billed on an estimate, until a reading makes its volume final. It keeps what its price depends on. `absent` marks a period of
// known absence, 14(6).
#[derive(Clone, Copy, PartialEq, Eq, Debug, Default)]
pub struct Estimate {
    pub absent: bool,
    pub period: BillingPeriod,
    pub volume: u32,
    pub charged: u32,
}

// Standing estimates, oldest first.
#[derive(Clone, Copy, PartialEq, Eq, Debug, Default)]
pub struct Estimates {
    pub count: usize,
    pub periods: [Estimate; MOST_MISSES],
}

impl Estimates {
    // The places that hold an estimate.
    pub fn standing(&self) -> StandingPeriods<'_>
        requires { AtMostSix self.now }
        ensures { result.periods.now ≡ standing self.now }
    {
        StandingPeriods {
            periods: &self.periods[..self.count],
        }
    }
}

// The estimates that stand, oldest first: at most six.
#[derive(Clone, Copy)]
pub struct StandingPeriods<'a> {
    pub periods: &'a [Estimate],
    ghost few: { length periods.now ≤ most_misses },
}

impl StandingPeriods<'_> {
    // The volumes that a reading makes final: the estimates and what is left of the pool for this period, or shares of the pool. They are
    // written into the array from its start.
    #[tactic(auto, unfolding(crate::specs::Sharing::final_volumes))]
    pub fn final_volumes(self, pool: u32, volumes: &mut [u32; MOST_FINAL])
        requires pool_le_most_volume { pool ≤ most_volume }
        ensures { volumes.new ≡ filled_with (final_volumes self.entry.periods.now pool) volumes.old }
    {
        let billed = self.estimated_volume();
        if billed <= u64::from(pool) {
            self.confirm(pool - billed as u32, volumes);
        } else {
            self.share_pool(pool, volumes);
        }
    }

    // What was billed on the estimates.
    #[tactic(auto, using(crate::proofs::Standing::estimated_is_sum))]
    pub fn estimated_volume(self) -> u64
        ensures { result ≡ estimated self.entry.periods.now }
    {
        self.periods
            .iter()
            .map(|estimate| u64::from(estimate.volume))
            .sum()
    }

    // The estimates as they were billed, and what is left for this period.
    #[tactic(auto, using(lists::proofs::Pad::map_take_suc))]
    fn confirm(self, rest: u32, volumes: &mut [u32; MOST_FINAL])
        ensures { volumes.new ≡ filled_with (map (λ estimate. estimate.volume) self.entry.periods.now ++ (rest ∷ [])) volumes.old }
    {
        for (i, estimate) in self.periods.iter().enumerate() {
            volumes[i] = estimate.volume;
        }
        volumes[self.periods.len()] = rest;
    }

    // The pool shared by this period and the estimates, latest first.
    #[tactic(auto, using(crate::proofs::Sharing::sharers_standing))]
    fn share_pool(self, pool: u32, volumes: &mut [u32; MOST_FINAL])
        requires pool_le_most_volume { pool ≤ most_volume }
        ensures { volumes.new ≡ filled_with (shared_pool self.entry.periods.now pool) volumes.old }
    {
        let mut share = take_share(false, pool, self.count_sharers() + 1);
        volumes[self.periods.len()] = share.part;
        for (i, estimate) in self.periods.iter().enumerate().rev() {
            share = take_share(estimate.absent, share.left, share.periods);
            volumes[i] = share.part;
        }
    }

    // How many of the estimates share a pool.
    #[tactic(auto, using(crate::proofs::Standing::sharers_are_counted))]
    fn count_sharers(self) -> u32
        ensures { result ≡ sharers (map sharing self.entry.periods.now) }
    {
        self.periods
            .iter()
            .filter(|estimate| !estimate.absent)
            .count() as u32
    }
}

// Volumes made final, oldest first.
#[derive(Clone, Copy, PartialEq, Eq, Debug, Default)]
pub struct Volumes {
    pub count: usize,
    pub volumes: [u32; MOST_FINAL],
}

// What a period takes of a pool, and what is left for how many periods before it.
#[derive(Clone, Copy, PartialEq, Eq, Debug, Default)]
pub struct Share {
    pub part: u32,
    pub left: u32,
    pub periods: u32,
}

// How far a dial turned from one reading to the next, without a branch: the span of five digits, whole turns of either dial, is added, the
// remainders by both spans are taken, and what the second has above the first counts at five digits only.
#[tactic(auto, unfolding(crate::specs::Dial::span))]
pub fn dial_advance(digits: u8, old: u32, new: u32) -> u32
    requires { OnDial digits old new }
    ensures { result ≡ advance digits old new }
{
    let turned = new + dial_span(5) - old;
    let four = turned % dial_span(4);
    let five = turned % dial_span(5);
    four + (five - four) * u32::from(digits - 4)
}

// An advance above half the span is taken for a misreading.
#[tactic(auto, unfolding(crate::specs::Dial::within_half))]
pub fn within_half(digits: u8, volume: u32) -> bool
    requires { Digits digits }
    ensures { result ≡ within_half digits volume }
{
    volume <= dial_span(digits) / 2
}

// The numbers that a dial shows.
#[tactic(auto, using(crate::proofs::Dial::span_four, crate::proofs::Dial::span_five))]
pub fn dial_span(digits: u8) -> u32
    requires { Digits digits }
    ensures { result ≡ span digits }
{
    if digits == 4 { 10_000 } else { 100_000 }
}

// One period's turn: what is left divided by the periods left, rounded up.
#[tactic(auto, using(crate::proofs::Sharing::ceiling_is_div_ceil, crate::proofs::Sharing::part_at_most), unfolding(crate::specs::Sharing::share_taken))]
fn take_share(absent: bool, left: u32, periods: u32) -> Share
    requires { Shareable absent left periods }
    ensures { result ≡ share_taken absent left periods }
{
    if absent {
        return Share {
            part: 0,
            left,
            periods,
        };
    }
    let part = left.div_ceil(periods);
    Share {
        part,
        left: left - part,
        periods: periods - 1,
    }
}

// Accounts kept from before a change of their form, taken to today's.
#![tactic(auto)]

pub mod basis;
pub mod closing_days;
pub mod parts;

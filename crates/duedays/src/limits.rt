// The bounds of specs/Limits.

// The most days that a list has.
pub const MOST_LISTED: usize = 400;

// The last day of the calendar: no listed day is later, and no due day.
pub const LAST_DUE_DAY: u16 = 36_524;

// The days from an obligation to the first day that it can be due on.
pub const TERM: u16 = 30;

// The last day that a call may bear.
pub const LAST_CALL_DAY: u16 = 36_094;

// The bounds of specs/Limits, and the years between them.

// The first day of the calendar, 1 January 2000.
pub const FIRST_NUMBER: u32 = 0;

// The last day of the calendar, 31 December 2099.
pub const LAST_NUMBER: u32 = 36_524;

// The first year of the calendar.
pub const FIRST_YEAR: u32 = 2_000;

// The last year of the calendar.
pub const LAST_YEAR: u32 = 2_099;

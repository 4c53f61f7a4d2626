// The bounds of specs/Limits and numbers of article 27.

// 12: no more items are open when a call ends.
pub const CAPACITY: usize = 72;

// No price item is of more.
pub const MOST_PRICE: u64 = 1_000_000_000;

// No interest item is of more, and no more interest is held.
pub const MOST_INTEREST: u64 = 1_000_000_000_000;

// No item has gathered more of body yen × late days.
pub const MOST_GATHERED: u64 = 100_000_000_000_000;

// 13: no credit is of more when a call ends.
pub const MOST_CREDIT: u64 = 999_999_999;

// The places among which a queue lies while entries are worked.
pub const LANE_PLACES: usize = 128;

// A queue that ends by here has room behind it for the three items that an entry posts at most.
pub const MOST_END: usize = LANE_PLACES - 3;

// 27(1): so many days late bring no interest.
pub const DAYS_OF_GRACE: u16 = 10;

// 27(1): interest for each day late, in millionths of the body.
pub const MILLIONTHS_A_DAY: u64 = 274;

// The phases of the reading. Numbers, not an enum: functions of reading, reporting and study answer for every number in `Reading::phase`, and theorem `ViewIsWhole`
// speaks of every state.

// records are still read
pub const OPEN: u32 = 0;

// the closing record was taken
pub const CLOSED: u32 = 1;

// a refusal is kept
pub const REFUSED: u32 = 2;

// The kinds of records, which their first bytes say. Numbers, not an enum: `decoding::body_length` and `faults::order_fault` answer for every byte.
pub const OPENING: u8 = 1;

pub const TARGET: u8 = 2;

pub const LEAK: u8 = 3;

pub const BRANCHING: u8 = 4;

pub const OUTCOME: u8 = 5;

pub const EFFECT: u8 = 6;

pub const CLOSING: u8 = 7;

// an effect with the unit of its duration
pub const TIMED_EFFECT: u8 = 8;

// a branching by an ignition curve
pub const CURVE_BRANCHING: u8 = 10;

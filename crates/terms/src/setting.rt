// The settings of a place of people (document 01, "Records").

// individual risk; equipment has this number too
pub const INDIVIDUAL: u8 = 0;

// social risk, outdoors and indoors
pub const OUTDOORS: u8 = 1;

pub const INDOORS: u8 = 2;

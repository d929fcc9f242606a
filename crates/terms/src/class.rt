// The classes of targets (document 01, "Records").

// a place of people
pub const PEOPLE: u8 = 0;

// a vessel at atmospheric pressure
pub const ATMOSPHERIC: u8 = 1;

// a vessel under pressure
pub const PRESSURISED: u8 = 2;

pub const TOWER: u8 = 3;

// a pump, compressor or exchanger
pub const MACHINE: u8 = 4;

pub const PIPE: u8 = 5;

// The units of an effect's duration, which the last byte of its record says (document 02, request P6).
pub const SECONDS: u8 = 0;

pub const TENTHS: u8 = 1;

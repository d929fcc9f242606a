// The kinds of outcomes (document 01, "Records"). The fires are the kinds from the pool fire to the fireball.
pub const NO_EFFECT: u8 = 0;

pub const POOL_FIRE: u8 = 1;

pub const JET_FIRE: u8 = 2;

pub const FIREBALL: u8 = 3;

pub const FLASH_FIRE: u8 = 4;

pub const EXPLOSION: u8 = 5;

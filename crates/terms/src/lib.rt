// What the rules of death and damage speak of: targets, chances with their judgement, and how a fire's duration is counted.
#![tactic(auto)]

// Classes, outcome kinds, settings and units are numbers, and no enums: `clock_of`, and the functions of people, equipment and vulnerability, answer for every
// byte, and a target is unpacked from any number.
pub mod class;
pub mod outcome;
pub mod setting;
pub mod unit;

ghost use Rattle.std.specs.Prelude.{◌≡◌};
ghost use Rattle.terms.specs.Terms.{clock_of};

// A chance in millionths, and whether a rule judged it: where none did, the chance is 0. The flag beside the chance stays: the theorems FireJudged and EdgesStand
// speak of both fields.
#[derive(Clone, Copy)]
pub struct Judged {
    pub chance: u32,
    pub judged: bool,
}

// What is known of a target: class, setting (0 for equipment) and volume in m³.
#[derive(Clone, Copy)]
pub struct Target {
    pub class: u8,
    pub setting: u8,
    pub volume: u32,
}

// How a fire's duration is counted (document 01, "Chance of death" and "Chance of damage").
#[derive(Clone, Copy)]
pub struct Clock {
    // the longest time that people are in a fire
    pub longest: u16,
    // what the probit of death in a fire takes off, in millionths
    pub constant: u32,
    // only a longer fire damages equipment
    pub limit: u16,
}

impl Clock {
    // fires timed in whole seconds
    pub const SECONDS: Clock = Clock {
        longest: 20,
        constant: 36_380_000,
        limit: 600,
    };
    // fires timed in tenths of a second (document 02, request P6)
    pub const TENTHS: Clock = Clock {
        longest: 200,
        constant: 42_274_618,
        limit: 6_000,
    };
}

// The clock of a unit. A number that is no unit has that of seconds.
#[tactic(auto, unfolding(crate::specs::Terms::clock_of, numeric::specs::Choice::if_eq))]
pub fn clock_of(unit: u8) -> Clock
    ensures { result ≡ clock_of unit }
{
    match unit {
        unit::TENTHS => Clock::TENTHS,
        _ => Clock::SECONDS,
    }
}

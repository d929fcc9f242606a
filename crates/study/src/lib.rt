// The study: read in pieces, and reported once it is closed (document 01).
#![tactic(auto)]

mod bounds;
mod following;
mod into;
mod pieces;
mod records;
mod reports;
mod scenarios;
mod tables;
mod whole;

ghost use Rattle.std.specs.Prelude.{◌≡◌};
ghost use Rattle.model.specs.Machine.{fresh};
ghost use Rattle.study.specs.View.{view};

pub use into::Answer;
pub use pieces::Taken;
use state::{Core, Rows};
use tables::Tables;
use terms::{class, outcome, setting};

// A study being read, by value. No field is public: only a report shows a figure, and none before the end.
#[repr(C)]
#[derive(Clone, Copy)]
pub struct Study {
    core: Core,
    // the bytes of the record that has begun, `core.reading.have` of them: no Vec, since the desk keeps nothing on a heap
    pending: [u8; 16],
    tables: Tables,
}

// The bounds of a study.
impl Study {
    pub const MOST_TARGETS: u16 = state::MOST_TARGETS;

    pub const MOST_SCENARIOS: u32 = 65_536;

    pub const MOST_RECORDS: u32 = 1_000_000;
    // branchings above a branching
    pub const MOST_ABOVE: u8 = 7;

    pub const MOST_VOLUME: u32 = 100_000;

    pub const LEAST_FREQUENCY: u64 = 1;

    pub const MOST_FREQUENCY: u64 = 10_000_000_000_000;

    pub const MOST_EFFECTS: u16 = 256;

    pub const MOST_CHANCE: u32 = 1_000_000;

    // the greatest number of an ignition curve
    pub const MOST_CURVE: u8 = 13;

    pub const MOST_KIND: u8 = outcome::EXPLOSION;

    pub const MOST_CLASS: u8 = class::PIPE;

    pub const MOST_SETTING: u8 = setting::INDOORS;

    // A study of which nothing is read yet.
    #[tactic(auto, unfolding(model::specs::Machine::fresh))]
    pub fn fresh() -> Study
        ensures { view result ≡ fresh }
    {
        Study {
            core: Core::default(),
            pending: [0; 16],
            tables: Tables {
                stack: [0; 9],
                rows: Rows {
                    sums: [0; 256],
                    margins: [0; 256],
                    facts: [0; 256],
                },
            },
        }
    }
}

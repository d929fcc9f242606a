// The parts of a study that go by value, and the answers of its calls. The rules stand in the crate model, the code in the crate study.
#![tactic(auto)]

pub mod phase;
pub mod record;
mod refusal;

pub use refusal::Refusal;

// The targets that a study has rows for.
pub const MOST_TARGETS: u16 = 256;

// The widest fields come first, and the others fill whole words but for one, two or four bytes: what is left over is then copied in one step.

// Where the reading stands.
#[repr(C)]
#[derive(Clone, Copy, Default)]
pub struct Reading {
    // bytes read so far
    pub place: u64,
    // place of the record's first byte
    pub start: u64,
    // place of the kept refusal
    pub at: u64,
    // a number of the module phase
    pub phase: u32,
    // bytes of the record that has begun
    pub have: u8,
    // the kept refusal's number, 0 where there is none: theorem ViewIsWhole and the machine speak of any
    pub number: u8,
}

// What the records so far add up to.
#[repr(C)]
#[derive(Clone, Copy, Default)]
pub struct Counts {
    // sum of the leak frequencies
    pub leaks: u64,
    pub records: u32,
    pub scenarios: u32,
    // number of the last scenario
    pub last: u32,
    pub targets: u16,
}

// Where in a tree the reading stands.
#[repr(C)]
#[derive(Clone, Copy, Default)]
pub struct Branch {
    // the leak's frequency
    pub leak: u64,
    // the outcome's frequency, branchings above and kind
    pub frequency: u64,
    pub above: u32,
    // the least target that the next effect may name
    pub next: u32,
    // effects still to come
    pub left: u16,
    // trees still to come
    pub height: u8,
    pub kind: u8,
}

// Totals of the study.
#[repr(C)]
#[derive(Clone, Copy, Default)]
pub struct Tally {
    pub kind0: u64,
    pub kind1: u64,
    pub kind2: u64,
    pub kind3: u64,
    pub kind4: u64,
    pub kind5: u64,
    pub study: u32,
    pub unjudged: u32,
}

// All of a study but its arrays.
#[repr(C)]
#[derive(Clone, Copy, Default)]
pub struct Core {
    pub reading: Reading,
    pub counts: Counts,
    pub branch: Branch,
    pub tally: Tally,
}

// What a study keeps of one target: its sum, its margin, and its facts packed with its mark on the domino list.
#[derive(Clone, Copy)]
pub struct Row {
    pub sum: u64,
    pub margin: u32,
    pub facts: u64,
}

// What a study keeps of all targets: for each its sum, its margin, and its facts packed with its mark on the domino list. Three arrays, and none of rows: a row
// with its padding has 24 bytes, and a study the size that include/riskdesk.h promises.
#[repr(C)]
#[derive(Clone, Copy)]
pub struct Rows {
    pub sums: [u64; 256],
    pub margins: [u32; 256],
    pub facts: [u64; 256],
}

// Below, the number of each report is a number, 0 or that of a `Refusal`, and the class one too: C reads them.

// A report of the whole study. A refused one has 0 in every field but number and place.
#[repr(C)]
#[derive(Clone, Copy, PartialEq, Eq)]
pub struct Totals {
    pub number: u8,
    pub place: u64,
    pub study: u32,
    pub records: u32,
    pub leaks: u64,
    pub kinds: [u64; 6],
    pub unjudged: u32,
    pub targets: u16,
}

// A report of one target: its grade where it is a place of people (class 0), whether it is listed where it is equipment.
#[repr(C)]
#[derive(Clone, Copy, PartialEq, Eq)]
pub struct TargetReport {
    pub number: u8,
    pub place: u64,
    pub sum: u64,
    pub margin: u32,
    pub class: u8,
    pub grade: u8,
    pub listed: bool,
}

// A report of the domino list: how many numbers stand at the front of the lent list.
#[repr(C)]
#[derive(Clone, Copy, PartialEq, Eq)]
pub struct DominoReport {
    pub number: u8,
    pub place: u64,
    pub count: usize,
}

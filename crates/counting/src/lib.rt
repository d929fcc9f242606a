// All of a study but its arrays, after a record of each kind (the machine of the crate model).
#![tactic(auto)]

mod branches;
mod counts;
mod tallies;

ghost use Rattle.std.specs.Prelude.{◌≡◌};
ghost use Rattle.model.specs.Machine.{core, open_phase, closed_phase, taken, one_record, one_target, one_leak, leak_branch, branched_branch, outcome_branch, study_tally, outcome_tally, frequency_of};
ghost use Rattle.counting.specs.Kinds.{with_kinds};

use branches::{enter_branching, enter_leak, enter_outcome};
use counts::{count_leak, count_record, count_target, take};
use state::{Core, phase};
pub use tallies::kinds_of;
use tallies::{grow_kind, tally_study, tally_with};

// One function for each kind of record: each changes other parts, and docs/PROMISES.md names each.
pub fn core_opening(c: Core, number: u32) -> Core
    ensures { result ≡ core (taken c.reading open_phase) (one_record c.counts) c.branch (study_tally c.tally number) }
{
    Core {
        reading: take(c.reading, phase::OPEN),
        counts: count_record(c.counts),
        tally: tally_study(c.tally, number),
        ..c
    }
}

pub fn core_target(c: Core) -> Core
    ensures { result ≡ core (taken c.reading open_phase) (one_target c.counts) c.branch c.tally }
{
    Core {
        reading: take(c.reading, phase::OPEN),
        counts: count_target(c.counts),
        ..c
    }
}

pub fn core_leak(c: Core, number: u32, frequency: u64) -> Core
    ensures { result ≡ core (taken c.reading open_phase) (one_leak c.counts number frequency) (leak_branch c.branch frequency) c.tally }
{
    Core {
        reading: take(c.reading, phase::OPEN),
        counts: count_leak(c.counts, number, frequency),
        branch: enter_leak(c.branch, frequency),
        ..c
    }
}

pub fn core_branching(c: Core) -> Core
    ensures { result ≡ core (taken c.reading open_phase) (one_record c.counts) (branched_branch c.branch) c.tally }
{
    Core {
        reading: take(c.reading, phase::OPEN),
        counts: count_record(c.counts),
        branch: enter_branching(c.branch),
        ..c
    }
}

// The outcome takes the next tree, as it is packed. The lent array has the totals of the kinds; those in the core are old, and stay.
#[tactic(auto, unfolding(model::specs::Machine::outcome_tally))]
pub fn core_outcome(c: Core, tree: u64, kind: u8, effects: u16, kinds: &mut [u64; 6]) -> Core
    ensures kinds_after { with_kinds result kinds.new ≡ core (taken c.reading open_phase) (one_record c.counts) (outcome_branch c.branch tree kind effects) (outcome_tally (with_kinds c kinds.old).tally kind (frequency_of tree)) }
    ensures tally_value { result.tally ≡ c.tally }
{
    grow_kind(kinds, kind, tree / 16);
    Core {
        reading: take(c.reading, phase::OPEN),
        counts: count_record(c.counts),
        branch: enter_outcome(c.branch, tree, kind, effects),
        ..c
    }
}

pub fn core_closing(c: Core) -> Core
    ensures { result ≡ core (taken c.reading closed_phase) (one_record c.counts) c.branch c.tally }
{
    Core {
        reading: take(c.reading, phase::CLOSED),
        counts: count_record(c.counts),
        ..c
    }
}

// The core with the totals of the kinds from an array.
pub fn with_kinds(c: Core, kinds: &[u64; 6]) -> Core
    ensures { result ≡ with_kinds c kinds.now }
{
    Core {
        tally: tally_with(c.tally, kinds),
        ..c
    }
}

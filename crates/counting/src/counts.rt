// The counts of a study, and its reading after a record.
ghost use Rattle.std.specs.Prelude.{◌≡◌};
ghost use Rattle.model.specs.Machine.{taken, one_record, one_target, one_leak};

use state::{Counts, Reading};

// A record is taken, and the study goes on in a phase: a record that follows begins at the place.
#[tactic(auto, unfolding(model::specs::Machine::taken))]
pub(crate) fn take(h: Reading, phase: u32) -> Reading
    ensures { result ≡ taken h phase }
{
    Reading {
        phase,
        have: 0,
        start: h.place,
        number: 0,
        at: 0,
        ..h
    }
}

#[tactic(auto, unfolding(model::specs::Machine::one_record))]
pub(crate) fn count_record(k: Counts) -> Counts
    ensures { result ≡ one_record k }
{
    Counts {
        records: k.records.saturating_add(1),
        ..k
    }
}

#[tactic(auto, unfolding(model::specs::Machine::one_record, model::specs::Machine::one_target))]
pub(crate) fn count_target(k: Counts) -> Counts
    ensures { result ≡ one_target k }
{
    Counts {
        targets: k.targets.saturating_add(1),
        ..count_record(k)
    }
}

#[tactic(auto, unfolding(model::specs::Machine::one_record, model::specs::Machine::one_leak))]
pub(crate) fn count_leak(k: Counts, number: u32, frequency: u64) -> Counts
    ensures { result ≡ one_leak k number frequency }
{
    Counts {
        scenarios: k.scenarios.saturating_add(1),
        last: number,
        leaks: k.leaks.saturating_add(frequency),
        ..count_record(k)
    }
}

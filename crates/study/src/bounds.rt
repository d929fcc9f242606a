// The fault of a record where a study's bounds are compared (document 01, "Numbers the desk says no with"): `Ok` where it has none.
ghost use Rattle.std.specs.Prelude.{◌≡◌, List, ℕ};
ghost use Rattle.numeric.specs.Choice.{if_lt};
ghost use Rattle.state.specs.Refusals.{refusal_in};
ghost use Rattle.model.specs.Bounds.{most_above};
ghost use Rattle.model.specs.Content.{given, on_curve, described};
ghost use Rattle.model.specs.Format.{target_rec, leak_rec, branching_rec, outcome_rec, closing_rec};
ghost use Rattle.model.specs.Faults.{target_fault, leak_fault, chance_fault, branching_fault, outcome_fault};
ghost use Rattle.model.specs.Verdict.{field, facts_at};
ghost use Rattle.model.specs.Machine.{top, above_of, fault_in};
ghost use Rattle.study.specs.Placing.{place_fault};

use crate::Study;
use faults::check;
use state::{Core, Refusal, record};
use terms::{Target, class, outcome, setting};

// A record that the order doesn't allow here, or one record too many.
#[tactic(auto, using(crate::proofs::RecordLaws::order_fault_two), unfolding(crate::specs::Placing::place_fault, numeric::specs::Choice::if_eq, numeric::specs::Choice::if_le))]
pub(crate) fn place_fault(c: Core, role: u8) -> Result<(), Refusal>
    ensures { refusal_in result ≡ place_fault c role }
{
    let k = c.counts;
    let b = c.branch;
    faults::order_fault(k.records, b.left, b.height, k.scenarios, role)?;
    check(k.records < Study::MOST_RECORDS, Refusal::TooMany)
}

#[tactic(auto, unfolding(model::specs::Faults::target_fault, numeric::specs::Choice::if_eq, numeric::specs::Choice::if_le, numeric::specs::Choice::if_lt))]
fn target_fault(targets: u16, number: u16, f: Target) -> Result<(), Refusal>
    ensures { refusal_in result ≡ target_fault targets number f }
{
    check(targets < Study::MOST_TARGETS, Refusal::TooMany)?;
    let known = f.class <= Study::MOST_CLASS && f.setting <= Study::MOST_SETTING;
    let fits = known
        && f.volume <= Study::MOST_VOLUME
        && (f.class == class::PEOPLE || f.setting == setting::INDIVIDUAL);
    check(fits, Refusal::Field)?;
    faults::number_fault(number, targets)
}

#[tactic(auto, unfolding(model::specs::Faults::leak_fault, numeric::specs::Choice::if_eq, numeric::specs::Choice::if_le, numeric::specs::Choice::if_lt))]
fn leak_fault(scenarios: u32, last: u32, number: u32, frequency: u64) -> Result<(), Refusal>
    ensures { refusal_in result ≡ leak_fault scenarios last number frequency }
{
    check(scenarios < Study::MOST_SCENARIOS, Refusal::TooMany)?;
    check(
        Study::LEAST_FREQUENCY <= frequency && frequency <= Study::MOST_FREQUENCY,
        Refusal::Field,
    )?;
    check(scenarios == 0 || last < number, Refusal::Numbering)
}

#[tactic(auto, unfolding(model::specs::Faults::outcome_fault, numeric::specs::Choice::if_eq, numeric::specs::Choice::if_lt))]
fn outcome_fault(kind: u8, effects: u16) -> Result<(), Refusal>
    ensures { refusal_in result ≡ outcome_fault kind effects }
{
    let fits = kind <= Study::MOST_KIND
        && effects <= Study::MOST_EFFECTS
        && (kind != outcome::NO_EFFECT || effects == 0);
    check(fits, Refusal::Field)
}

// A branching here with too many above it.
#[tactic(auto, unfolding(numeric::specs::Choice::if_lt))]
fn depth_fault(c: Core, stack: &[u64; 9]) -> Result<(), Refusal>
    ensures { refusal_in result ≡ if_lt most_above (above_of (top stack.now c.branch.height)) 5 0 }
{
    let above = (trees::next_tree(stack, c.branch.height) % 16) as u8;
    check(above <= Study::MOST_ABOVE, Refusal::TooMany)
}

#[tactic(auto, unfolding(model::specs::Faults::chance_fault, numeric::specs::Choice::if_eq, numeric::specs::Choice::if_lt))]
fn curve_fault(curve: u8, rate: u32) -> Result<(), Refusal>
    ensures { refusal_in result ≡ chance_fault (on_curve curve rate) }
{
    check(
        0 < curve && curve <= Study::MOST_CURVE && rate != 0,
        Refusal::Field,
    )
}

// One function for a chance that is given and one for a curve's, and no enum of both: the kind byte has told them apart before.
#[tactic(auto, unfolding(model::specs::Faults::branching_fault, model::specs::Faults::chance_fault, numeric::specs::Choice::if_lt))]
fn own_branching(c: Core, chance: u32, stack: &[u64; 9]) -> Result<(), Refusal>
    ensures { refusal_in result ≡ branching_fault (above_of (top stack.now c.branch.height)) (given chance) }
{
    depth_fault(c, stack)?;
    check(chance <= Study::MOST_CHANCE, Refusal::Field)
}

#[tactic(auto, unfolding(model::specs::Faults::branching_fault, numeric::specs::Choice::if_lt))]
fn own_curve(c: Core, curve: u8, rate: u32, stack: &[u64; 9]) -> Result<(), Refusal>
    ensures { refusal_in result ≡ branching_fault (above_of (top stack.now c.branch.height)) (on_curve curve rate) }
{
    depth_fault(c, stack)?;
    curve_fault(curve, rate)
}

// Below, the first fault of a record of each kind.
#[tactic(auto, using(crate::proofs::RecordLaws::err_number, crate::proofs::RecordLaws::first_by_place, crate::proofs::RecordLaws::fault_by_own), unfolding(model::specs::Faults::own_fault))]
pub(crate) fn check_target(c: Core, p: &[u8]) -> Result<(), Refusal>
    ensures { (k : List ℕ) → refusal_in result ≡ fault_in c k (target_rec (field p.now 1 2) (described (facts_at p.now))) }
{
    place_fault(c, record::TARGET)?;
    target_fault(
        c.counts.targets,
        decoding::half_at(p, 1),
        decoding::facts(p),
    )
}

#[tactic(auto, using(crate::proofs::RecordLaws::err_number, crate::proofs::RecordLaws::first_by_place, crate::proofs::RecordLaws::fault_by_own), unfolding(model::specs::Faults::own_fault))]
pub(crate) fn check_leak(c: Core, number: u32, frequency: u64) -> Result<(), Refusal>
    ensures { (k : List ℕ) → refusal_in result ≡ fault_in c k (leak_rec number frequency) }
{
    place_fault(c, record::LEAK)?;
    leak_fault(c.counts.scenarios, c.counts.last, number, frequency)
}

#[tactic(auto, using(crate::proofs::RecordLaws::err_number, crate::proofs::RecordLaws::first_by_place, crate::proofs::RecordLaws::fault_by_own, model::proofs::Follows::trees_next), unfolding(model::specs::Faults::own_fault))]
pub(crate) fn check_branching(c: Core, chance: u32, stack: &[u64; 9]) -> Result<(), Refusal>
    ensures { refusal_in result ≡ fault_in c stack.now (branching_rec (given chance)) }
{
    place_fault(c, record::BRANCHING)?;
    own_branching(c, chance, stack)
}

#[tactic(auto, using(crate::proofs::RecordLaws::err_number, crate::proofs::RecordLaws::first_by_place, crate::proofs::RecordLaws::fault_by_own, model::proofs::Follows::trees_next), unfolding(model::specs::Faults::own_fault))]
pub(crate) fn check_curve(c: Core, curve: u8, rate: u32, stack: &[u64; 9]) -> Result<(), Refusal>
    ensures { refusal_in result ≡ fault_in c stack.now (branching_rec (on_curve curve rate)) }
{
    place_fault(c, record::BRANCHING)?;
    own_curve(c, curve, rate, stack)
}

#[tactic(auto, using(crate::proofs::RecordLaws::err_number, crate::proofs::RecordLaws::first_by_place, crate::proofs::RecordLaws::fault_by_own), unfolding(model::specs::Faults::own_fault))]
pub(crate) fn check_outcome(c: Core, kind: u8, effects: u16) -> Result<(), Refusal>
    ensures { (k : List ℕ) → refusal_in result ≡ fault_in c k (outcome_rec kind effects) }
{
    place_fault(c, record::OUTCOME)?;
    outcome_fault(kind, effects)
}

#[tactic(auto, using(crate::proofs::RecordLaws::err_number, crate::proofs::RecordLaws::first_by_place, crate::proofs::RecordLaws::fault_by_own), unfolding(model::specs::Faults::own_fault))]
pub(crate) fn check_closing(c: Core, p: &[u8]) -> Result<(), Refusal>
    ensures { (k : List ℕ) → refusal_in result ≡ fault_in c k (closing_rec (field p.now 1 4) (field p.now 5 8)) }
{
    place_fault(c, record::CLOSING)?;
    faults::own_closing(c, p)
}

// Where in a tree the reading stands.
ghost use Rattle.std.specs.Prelude.{◌≡◌};
ghost use Rattle.model.specs.Machine.{leak_branch, branched_branch, outcome_branch};

use state::Branch;

#[tactic(auto, unfolding(model::specs::Machine::leak_branch))]
pub(crate) fn enter_leak(b: Branch, frequency: u64) -> Branch
    ensures { result ≡ leak_branch b frequency }
{
    Branch {
        height: 1,
        leak: frequency,
        ..b
    }
}

#[tactic(auto, unfolding(model::specs::Machine::branched_branch))]
pub(crate) fn enter_branching(b: Branch) -> Branch
    ensures { result ≡ branched_branch b }
{
    Branch {
        height: b.height.saturating_add(1).min(9),
        ..b
    }
}

// An outcome takes the next tree, as it is packed, and its effects begin.
#[tactic(auto, unfolding(model::specs::Machine::outcome_branch))]
pub(crate) fn enter_outcome(b: Branch, tree: u64, kind: u8, effects: u16) -> Branch
    ensures { result ≡ outcome_branch b tree kind effects }
{
    Branch {
        height: b.height.saturating_sub(1),
        left: effects,
        next: 0,
        kind,
        frequency: tree / 16,
        above: (tree % 16) as u32,
        ..b
    }
}

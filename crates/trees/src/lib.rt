// Leaks, branchings and outcomes: the trees still to come (the machine of the crate model).
#![tactic(auto)]

ghost use Rattle.std.specs.Prelude.{◌≡◌, ◌+◌, ◌-◌};
ghost use Rattle.numeric.specs.Share.{split_of};
ghost use Rattle.model.specs.Machine.{core, open_phase, taken, one_record, one_leak, packed, above_of, top, leak_stack, branch_stack, leak_branch, branched_branch, outcome_branch, outcome_tally, frequency_of};
ghost use Rattle.counting.specs.Kinds.{with_kinds};

use state::Core;

// A pending tree in one number: its frequency and the branchings above it.
#[tactic(auto, unfolding(model::specs::Machine::packed))]
fn pack(frequency: u64, above: u8) -> u64
    ensures { result ≡ packed frequency above }
{
    if frequency <= u64::MAX / 16 {
        frequency * 16 + (above % 16) as u64
    } else {
        u64::MAX
    }
}

// The next tree, packed; 0 where there is none.
#[tactic(auto, unfolding(model::specs::Machine::top, numeric::specs::Choice::if_eq, numeric::specs::Choice::if_le))]
pub fn next_tree(l: &[u64; 9], height: u8) -> u64
    ensures { result ≡ top l.now height }
{
    match height {
        1..=9 => l[height as usize - 1],
        _ => 0,
    }
}

#[tactic(auto, unfolding(model::specs::Machine::leak_stack, model::specs::Machine::store))]
pub fn take_leak(c: Core, number: u32, frequency: u64, stack: &mut [u64; 9]) -> Core
    ensures value { result ≡ core (taken c.reading open_phase) (one_leak c.counts number frequency) (leak_branch c.branch frequency) c.tally }
    ensures stack_after { stack.new ≡ leak_stack stack.old frequency }
{
    numeric::put(stack, 0, pack(frequency, 0));
    counting::core_leak(c, number, frequency)
}

// The second branch in the place of the next tree, and the first branch upon it, both under one branching more.
#[tactic(auto, unfolding(model::specs::Machine::branch_stack, model::specs::Machine::store))]
fn branch_stack(stack: &mut [u64; 9], height: u8, chance: u32)
    ensures { stack.new ≡ branch_stack stack.old height chance }
{
    let tree = next_tree(stack, height);
    let above = (tree % 16) as u8 + 1;
    let both = numeric::split(tree / 16, chance);
    let below = height.saturating_sub(1) as usize;
    numeric::put(stack, below, pack(both.second, above));
    numeric::put(stack, height as usize, pack(both.first, above));
}

pub fn take_branching(c: Core, chance: u32, stack: &mut [u64; 9]) -> Core
    ensures value { result ≡ core (taken c.reading open_phase) (one_record c.counts) (branched_branch c.branch) c.tally }
    ensures stack_after { stack.new ≡ branch_stack stack.old c.branch.height chance }
{
    branch_stack(stack, c.branch.height, chance);
    counting::core_branching(c)
}

// The lent array has the totals of the kinds; those in the core are old, and stay.
pub fn take_outcome(c: Core, kind: u8, effects: u16, stack: &[u64; 9], kinds: &mut [u64; 6]) -> Core
    ensures kinds_after { with_kinds result kinds.new ≡ core (taken c.reading open_phase) (one_record c.counts) (outcome_branch c.branch (top stack.now c.branch.height) kind effects) (outcome_tally (with_kinds c kinds.old).tally kind (frequency_of (top stack.now c.branch.height))) }
    ensures tally_value { result.tally ≡ c.tally }
{
    let tree = next_tree(stack, c.branch.height);
    counting::core_outcome(c, tree, kind, effects, kinds)
}

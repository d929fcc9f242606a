// Targets (the machine of the crate model).
#![tactic(auto)]

ghost use Rattle.std.specs.Prelude.{◌≡◌};
ghost use Rattle.model.specs.Bounds.{most_targets};
ghost use Rattle.model.specs.Verdict.{facts_at};
ghost use Rattle.model.specs.Machine.{core, open_phase, taken, one_target, store, packed_facts};

use state::Core;

#[tactic(auto, unfolding(model::specs::Machine::store))]
pub fn take_target(c: Core, p: &[u8], facts: &mut [u64; 256]) -> Core
    ensures value { result ≡ core (taken c.reading open_phase) (one_target c.counts) c.branch c.tally }
    ensures facts_after { facts.new ≡ store most_targets facts.old c.counts.targets (packed_facts (facts_at p.now)) }
{
    let packed = rows::pack_facts(decoding::facts(p));
    numeric::put(facts, c.counts.targets as usize, packed);
    counting::core_target(c)
}

// A record that has been entered is read: taken, or refused at its first byte.
ghost use Rattle.std.specs.Prelude.{◌≡◌, false, List, ℕ, ◌+◌, ◌<◌, ◌≤◌, get_or};
ghost use Rattle.model.specs.Content.{given, on_curve, described};
ghost use Rattle.model.specs.Format.{opening_rec, target_rec, leak_rec, branching_rec, outcome_rec, closing_rec};
ghost use Rattle.model.specs.Verdict.{body_length, field, decode, facts_at};
ghost use Rattle.state.specs.Refusals.{number_of};
ghost use Rattle.model.specs.Machine.{state, core, refused_with, record_read};
ghost use Rattle.counting.specs.Kinds.{with_kinds};
ghost use Rattle.study.specs.Spans.{of_scenario, length_of};

use crate::bounds::{
    check_branching, check_closing, check_curve, check_leak, check_outcome, check_target,
    place_fault,
};
use state::{Core, Refusal, record};

// The study after some bytes, and how many they were.
#[derive(Clone, Copy)]
pub(crate) struct Run {
    pub(crate) core: Core,
    pub(crate) at: usize,
}

// A record is refused at its first byte.
pub(crate) fn refused(c: Core, why: Refusal) -> Core
    ensures { result ≡ core (refused_with c.reading (number_of why)) c.counts c.branch c.tally }
{
    reading::core_reading(c, reading::refuse(c.reading, why.number()))
}

// Below, one function for a record of each kind: each reads other fields and lends another array, and each contract names its record.
#[tactic(auto, using(crate::proofs::RecordLaws::first_by_place, crate::proofs::RecordLaws::refused_as, crate::proofs::RecordLaws::fault_by_own, crate::proofs::RecordLaws::taken_for, faults::proofs::Laws::number_nonzero), unfolding(model::specs::Machine::accepted, model::specs::Machine::with_reading, model::specs::Faults::own_fault))]
fn read_opening(c: Core, p: &[u8]) -> Core
    requires { decode p.now ≡ opening_rec (field p.now 1 4) }
    ensures { (q k s m f : List ℕ) → state result q k s m f ≡ record_read (state c q k s m f) (decode p.now) }
{
    match place_fault(c, record::OPENING) {
        Ok(()) => counting::core_opening(c, decoding::word_at(p, 1)),
        Err(why) => refused(c, why),
    }
}

#[tactic(auto, using(crate::proofs::RecordLaws::refused_as, crate::proofs::RecordLaws::taken_for, faults::proofs::Laws::number_nonzero), unfolding(model::specs::Machine::accepted, model::specs::Machine::with_reading))]
fn read_target(c: Core, p: &[u8], facts: &mut [u64; 256]) -> Core
    requires { decode p.now ≡ target_rec (field p.now 1 2) (described (facts_at p.now)) }
    ensures { (q k s m : List ℕ) → state result q k s m facts.new ≡ record_read (state c q k s m facts.old) (decode p.now) }
{
    match check_target(c, p) {
        Ok(()) => targets::take_target(c, p, facts),
        Err(why) => refused(c, why),
    }
}

#[tactic(auto, using(crate::proofs::RecordLaws::refused_as, crate::proofs::RecordLaws::taken_for, faults::proofs::Laws::number_nonzero), unfolding(model::specs::Machine::accepted, model::specs::Machine::with_reading))]
pub(crate) fn read_leak(c: Core, p: &[u8], stack: &mut [u64; 9]) -> Core
    requires { decode p.now ≡ leak_rec (field p.now 1 4) (field p.now 5 8) }
    ensures { (q s m f : List ℕ) → state result q stack.new s m f ≡ record_read (state c q stack.old s m f) (decode p.now) }
{
    let number = decoding::word_at(p, 1);
    let frequency = decoding::long_at(p, 5);
    match check_leak(c, number, frequency) {
        Ok(()) => trees::take_leak(c, number, frequency, stack),
        Err(why) => refused(c, why),
    }
}

#[tactic(auto, using(crate::proofs::RecordLaws::refused_as, crate::proofs::RecordLaws::taken_for, faults::proofs::Laws::number_nonzero), unfolding(model::specs::Machine::accepted, model::specs::Machine::with_reading))]
pub(crate) fn read_branching(c: Core, p: &[u8], stack: &mut [u64; 9]) -> Core
    requires { decode p.now ≡ branching_rec (given (field p.now 1 4)) }
    ensures { (q s m f : List ℕ) → state result q stack.new s m f ≡ record_read (state c q stack.old s m f) (decode p.now) }
{
    let chance = decoding::word_at(p, 1);
    match check_branching(c, chance, stack) {
        Ok(()) => trees::take_branching(c, chance, stack),
        Err(why) => refused(c, why),
    }
}

// A branching whose chance is that of an ignition curve at a release rate.
#[tactic(auto, using(crate::proofs::RecordLaws::refused_as, crate::proofs::RecordLaws::taken_for, faults::proofs::Laws::number_nonzero), unfolding(model::specs::Machine::accepted, model::specs::Machine::with_reading))]
pub(crate) fn read_curve(c: Core, p: &[u8], stack: &mut [u64; 9]) -> Core
    requires { decode p.now ≡ branching_rec (on_curve (field p.now 1 1) (field p.now 2 4)) }
    ensures { (q s m f : List ℕ) → state result q stack.new s m f ≡ record_read (state c q stack.old s m f) (decode p.now) }
{
    let curve = decoding::byte_at(p, 1);
    let rate = decoding::word_at(p, 2);
    match check_curve(c, curve, rate, stack) {
        Ok(()) => {
            let chance = ignition::chance(curve, rate);
            trees::take_branching(c, chance, stack)
        }
        Err(why) => refused(c, why),
    }
}

// The lent array has the totals of the kinds; those in the core are old.
pub(crate) fn read_outcome(c: Core, p: &[u8], stack: &[u64; 9], kinds: &mut [u64; 6]) -> Core
    requires { decode p.now ≡ outcome_rec (field p.now 1 1) (field p.now 2 2) }
    ensures { (q s m f : List ℕ) → state (with_kinds result kinds.new) q stack.now s m f ≡ record_read (state (with_kinds c kinds.old) q stack.now s m f) (decode p.now) }
{
    let kind = decoding::byte_at(p, 1);
    let effects = decoding::half_at(p, 2);
    match check_outcome(c, kind, effects) {
        Ok(()) => trees::take_outcome(c, kind, effects, stack, kinds),
        Err(why) => refused(c, why),
    }
}

#[tactic(auto, using(crate::proofs::RecordLaws::refused_as, crate::proofs::RecordLaws::taken_for, faults::proofs::Laws::number_nonzero), unfolding(model::specs::Machine::accepted, model::specs::Machine::with_reading))]
fn read_closing(c: Core, p: &[u8]) -> Core
    requires { decode p.now ≡ closing_rec (field p.now 1 4) (field p.now 5 8) }
    ensures { (q k s m f : List ℕ) → state result q k s m f ≡ record_read (state c q k s m f) (decode p.now) }
{
    match check_closing(c, p) {
        Ok(()) => counting::core_closing(c),
        Err(why) => refused(c, why),
    }
}

// The study after a record of a kind.
fn ended(c: Core, kind: u8) -> Run
    ensures { (result.core ≡ c) × (result.at ≡ body_length kind + 1) }
{
    Run {
        core: c,
        at: decoding::body_length(kind) as usize + 1,
    }
}

// An opening, a target or a closing, and its length. The totals of the kinds stay, whatever they are.
pub(crate) fn read_other(c: Core, p: &[u8], facts: &mut [u64; 256]) -> Run
    requires { of_scenario (get_or p.now 0 0) ≡ false }
    ensures at_value { result.at ≡ length_of p.now }
    ensures facts_after { (l q k s m : List ℕ) → state (with_kinds result.core l) q k s m facts.new ≡ record_read (state (with_kinds c l) q k s m facts.old) (decode p.now) }
{
    let kind = decoding::kind(p);
    match kind {
        record::TARGET => ended(read_target(c, p, facts), kind),
        record::OPENING => ended(read_opening(c, p), kind),
        _ => ended(read_closing(c, p), kind),
    }
}

// Leaks, branchings, outcomes and effects that follow one another, read at once. Their places count from where the first of them begins, until the
// last is read.
ghost use Rattle.std.specs.Prelude.{◌≡◌, true, List, ℕ, ◌+◌, ◌≤◌, length, get_or, replicate};
ghost use Rattle.numeric.specs.Choice.{if_eq};
ghost use Rattle.model.specs.Format.{timed_kind};
ghost use Rattle.study.specs.View.{state_of};
ghost use Rattle.model.specs.Machine.{most64, open_phase, core, reading, state};
ghost use Rattle.counting.specs.Kinds.{with_kinds};
ghost use Rattle.study.specs.Spans.{of_scenario, length_of, after_first, Records};

use crate::following::read_effects;
use crate::records::{Run, read_branching, read_curve, read_leak, read_outcome};
use crate::tables::Tables;
use state::{Branch, Core, Counts, Reading, Tally, phase, record};

// Whether the reading stands between two records.
pub(crate) fn between(h: Reading) -> bool
    ensures { result ≡ true → (h.phase ≡ open_phase) × (h.have ≡ 0) }
{
    h.phase == phase::OPEN && h.have == 0
}

// Whether records of a kind are those of a scenario: leaks, branchings, outcomes and effects. Ifs, not `matches!`: that takes up to 9 % more instructions.
#[tactic(auto, unfolding(crate::specs::Spans::of_scenario, numeric::specs::Choice::if_eq))]
pub(crate) fn of_scenario(kind: u8) -> bool
    ensures { result ≡ of_scenario kind }
{
    if kind == record::LEAK {
        return true;
    }
    if kind == record::BRANCHING {
        return true;
    }
    if kind == record::OUTCOME {
        return true;
    }
    if kind == record::EFFECT {
        return true;
    }
    if kind == record::TIMED_EFFECT {
        return true;
    }
    if kind == record::CURVE_BRANCHING {
        return true;
    }
    false
}

// The length of an effect's record, by its kind.
#[tactic(auto, unfolding(numeric::specs::Choice::if_eq))]
fn effect_length(kind: u8) -> u8
    ensures { result ≡ if_eq kind timed_kind 10 9 }
{
    if kind == record::TIMED_EFFECT { 10 } else { 9 }
}

// Whether a whole leak, branching, outcome or effect begins here, with room for any record.
fn scenario_here(h: Reading, bytes: &[u8]) -> bool
    ensures { result ≡ true → (h.phase ≡ open_phase) × (h.have ≡ 0) × (16 ≤ length bytes.now) × (of_scenario (get_or bytes.now 0 0) ≡ true) }
{
    between(h) && 16 <= bytes.len() && of_scenario(bytes[0])
}

// All but the arrays where a record of n bytes has been entered, at a place.
pub(crate) fn entered_at(k: Counts, b: Branch, y: Tally, at: u64, n: u8) -> Core
    requires { at + n ≤ most64 }
    ensures { result ≡ core (reading open_phase n (at + n) at 0 0) k b y }
{
    Core {
        reading: Reading {
            place: at + n as u64,
            start: at,
            at: 0,
            phase: phase::OPEN,
            have: n,
            number: 0,
        },
        counts: k,
        branch: b,
        tally: y,
    }
}

// A leak, a branching, an outcome, or an effect with the effects that follow it, at a place among the bytes. A record is read in a slice of sixteen,
// where no field's end need be tested. The lent array has the totals of the kinds; those in the tally are old. Ifs in this order, not a match: a match
// takes up to 13 % more instructions (docs/PERFORMANCE.md); among these kinds only a branching by a curve is above a timed effect.
fn read_one(
    k: Counts,
    b: Branch,
    y: Tally,
    at: u64,
    p: &[u8],
    tables: &mut Tables,
    kinds: &mut [u64; 6],
) -> Run
    requires { (16 ≤ length p.now) × (of_scenario (get_or p.now 0 0) ≡ true) × (at + length p.now ≤ most64) }
    ensures records { Records p.now result.at }
    ensures by_index { (q : List ℕ) → state_of (with_kinds result.core kinds.new) (replicate 16 0) tables.new ≡ after_first (state_of (with_kinds (core (reading open_phase (length_of p.now) (at + length_of p.now) at 0 0) k b y) kinds.old) q tables.old) p.now result.at }
{
    let first = &p[0..16];
    let kind = decoding::kind(first);
    if kind == record::BRANCHING {
        let c = entered_at(k, b, y, at, 5);
        let r = read_branching(c, first, &mut tables.stack);
        return Run { core: r, at: 5 };
    }
    if record::TIMED_EFFECT < kind {
        let c = entered_at(k, b, y, at, 6);
        let r = read_curve(c, first, &mut tables.stack);
        return Run { core: r, at: 6 };
    }
    if kind == record::OUTCOME {
        let c = entered_at(k, b, y, at, 4);
        let r = read_outcome(c, first, &tables.stack, kinds);
        return Run { core: r, at: 4 };
    }
    if kind == record::LEAK {
        let c = entered_at(k, b, y, at, 13);
        let r = read_leak(c, first, &mut tables.stack);
        return Run { core: r, at: 13 };
    }
    let c = entered_at(k, b, y, at, effect_length(kind));
    read_effects(c, p, &mut tables.rows)
}

// The records of scenarios that the bytes begin with, of different lengths.
// The parts that go by value stand each by itself in the loop, which takes fewer instructions; the reading that comes in is not looked at.
fn read_from_first(c: Core, bytes: &[u8], tables: &mut Tables, kinds: &mut [u64; 6]) -> Run
    requires { (16 ≤ length bytes.now) × (of_scenario (get_or bytes.now 0 0) ≡ true) }
    ensures records { Records bytes.now result.at }
    ensures by_index { (q : List ℕ) → state_of (with_kinds result.core kinds.new) (replicate 16 0) tables.new ≡ after_first (state_of (with_kinds (core (reading open_phase (length_of bytes.now) (length_of bytes.now) 0 0 0) c.counts c.branch c.tally) kinds.old) q tables.old) bytes.now result.at }
{
    let mut k = c.counts;
    let mut b = c.branch;
    let mut y = c.tally;
    let mut at: usize = 0;
    loop {
        let run = read_one(k, b, y, at as u64, &bytes[at..], tables, kinds);
        at += run.at;
        if !scenario_here(run.core.reading, &bytes[at..]) {
            return Run { core: run.core, at };
        }
        k = run.core.counts;
        b = run.core.branch;
        y = run.core.tally;
    }
}

// The leak, branching, outcome or effect that the bytes begin with, which has been entered, and those that follow it.
pub(crate) fn read_scenarios(
    c: Core,
    bytes: &[u8],
    tables: &mut Tables,
    kinds: &mut [u64; 6],
) -> Run
    requires { (16 ≤ length bytes.now) × (of_scenario (get_or bytes.now 0 0) ≡ true) }
    ensures records { Records bytes.now result.at }
    ensures by_index { (q : List ℕ) → state_of (with_kinds result.core kinds.new) (replicate 16 0) tables.new ≡ after_first (state_of (with_kinds c kinds.old) q tables.old) bytes.now result.at }
{
    let n = decoding::body_length(decoding::kind(bytes)) + 1;
    let run = read_from_first(c, bytes, tables, kinds);
    let h = reading::moved(c.reading, n as u64, run.core.reading);
    Run {
        core: reading::core_reading(run.core, h),
        at: run.at,
    }
}

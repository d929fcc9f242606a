// Effects that follow one another, read at once.
ghost use Rattle.std.specs.Prelude.{◌≡◌, ◌⊎◌, List, ℕ, ◌+◌, ◌-◌, ◌<◌, ◌≤◌, length, get_or, replicate};
ghost use Rattle.model.specs.Bounds.{most_records};
ghost use Rattle.model.specs.Format.{effect_kind, timed_kind};
ghost use Rattle.model.specs.Machine.{most64, state};
ghost use Rattle.counting.specs.Kinds.{with_kinds};
ghost use Rattle.study.specs.Following.{core_after};
ghost use Rattle.study.specs.Spans.{length_of, after_first, Records};

use crate::Study;
use crate::bounds::place_fault;
use crate::records::{Run, refused};
use effects::Taken;
use state::{Branch, Core, Counts, Reading, Refusal, Rows, Tally, phase, record};

// How many effects the outcome and the number of records allow from an entered one on: all that are left, or that one alone.
fn most_effects(c: Core) -> u32
    ensures result_nonzero { 0 < result }
    ensures upper_bound { 1 < result → (result ≤ c.branch.left) × (c.counts.records + result ≤ most_records) }
{
    let left = c.branch.left as u32;
    if c.counts.records.saturating_add(left) <= Study::MOST_RECORDS {
        left.max(1)
    } else {
        1
    }
}

// All but the arrays after some effects.
fn core_after(c: Core, run: Taken) -> Core
    requires at_bound { c.reading.start + run.at ≤ most64 }
    requires count_le_left { (run.count ≤ c.branch.left) × (c.counts.records + run.count ≤ most_records) }
    ensures { result ≡ core_after c run.count run.at run.next run.unjudged }
{
    let place = c.reading.start + run.at as u64;
    Core {
        reading: Reading {
            place,
            start: place,
            at: 0,
            phase: phase::OPEN,
            have: 0,
            number: 0,
        },
        counts: Counts {
            records: c.counts.records + run.count as u32,
            ..c.counts
        },
        branch: Branch {
            left: (c.branch.left as usize - run.count) as u16,
            next: run.next,
            ..c.branch
        },
        tally: Tally {
            unjudged: run.unjudged,
            ..c.tally
        },
    }
}

// The effect that the bytes begin with, which has been entered, and the effects that follow it and are timed alike; all the bytes' places are counted. The totals of the
// kinds stay, whatever they are.
pub(crate) fn read_effects(c: Core, bytes: &[u8], rows: &mut Rows) -> Run
    requires in_bounds { (16 ≤ length bytes.now) × ((get_or bytes.now 0 0 ≡ effect_kind) ⊎ (get_or bytes.now 0 0 ≡ timed_kind)) }
    requires have_value { (c.reading.have ≡ length_of bytes.now) × (c.reading.place ≡ c.reading.start + length_of bytes.now) × (c.reading.start + length bytes.now ≤ most64) }
    ensures records { Records bytes.now result.at }
    ensures by_index { (l q k : List ℕ) → state (with_kinds result.core l) (replicate 16 0) k rows.new.sums rows.new.margins rows.new.facts ≡ after_first (state (with_kinds c l) q k rows.old.sums rows.old.margins rows.old.facts) bytes.now result.at }
{
    let first = c.reading.have as usize;
    if let Err(why) = place_fault(c, record::EFFECT) {
        return Run {
            core: refused(c, why),
            at: first,
        };
    }
    let run = effects::take_effects(
        c.branch,
        c.counts.targets,
        most_effects(c),
        c.tally.unjudged,
        bytes,
        rows,
    );
    if run.count == 0 {
        let why = faults::own_effect(
            c.counts.targets,
            c.branch.kind,
            c.branch.next,
            bytes,
        ).unwrap_err();
        return Run {
            core: refused(c, why),
            at: first,
        };
    }
    Run {
        core: core_after(c, run),
        at: run.at,
    }
}

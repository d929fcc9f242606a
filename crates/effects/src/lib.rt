// The effects of an outcome, taken one after the other while none has a fault.
#![tactic(auto)]

ghost use Rattle.std.specs.Prelude.{◌≡◌, true, false, ℕ, ◌-◌, ◌/◌, ◌<◌, ◌≤◌, min, length, get_or, MatchOption};
ghost use lib.ListN.{set};
ghost use Rattle.numeric.specs.Share.{share_of};
ghost use Rattle.model.specs.Bounds.{most_targets};
ghost use Rattle.model.specs.Machine.{up_to, most64};
ghost use Rattle.vulnerability.specs.Effect.{effect_on};
ghost use Rattle.model.specs.Verdict.{field};
ghost use Rattle.effects.specs.Effects.{figures, offset, after_effects, sound, taken_of};
ghost use Rattle.effects.specs.Timings.{timing_of, with_unit, alike_of};
ghost use Rattle.effects.specs.Judging.{JudgedAlike};
ghost use Rattle.effects.specs.Steps.{Added};

use state::{Branch, MOST_TARGETS, Rows, record};
use terms::{Clock, class, outcome, unit};

// How many effects were taken and how many bytes they have, the least target that the next one may name, and the effects of the study so far that no
// rule judged.
#[derive(Clone, Copy)]
pub struct Taken {
    pub count: usize,
    pub at: usize,
    pub next: u32,
    pub unjudged: u32,
}

// How effects that are taken in one loop are timed: the kind and the length of their records, and their clock.
#[derive(Clone, Copy)]
pub struct Timing {
    pub kind: u8,
    pub length: usize,
    pub clock: Clock,
}

// Effects timed alike, and how many they are at most.
#[derive(Clone, Copy)]
struct Run {
    timing: Timing,
    top: usize,
}

// What an effect's record says, but for the unit of its duration.
#[derive(Clone, Copy)]
struct Effect {
    target: u16,
    intensity: u32,
    duration: u16,
}

// How many effects, of ten bytes at most, begin where sixteen bytes are there to read one in: of so many at most. Where all are there, which is the rule, no
// division is made: it would weigh on runs of one or two effects.
fn reach(most: u32, len: usize) -> usize
    ensures { result ≡ min most ((len - 6) / 10) }
{
    let all = most as usize;
    if all * 10 + 6 <= len {
        all
    } else {
        len.saturating_sub(6) / 10
    }
}

// How many of the first effects of kind 8 have a unit; none has a number that is no unit.
fn with_unit(unit: u8, top: usize, bytes: &[u8]) -> usize
    requires { top ≤ (length bytes.now - 6) / 10 }
    ensures { result ≡ with_unit unit bytes.now top }
{
    if unit::TENTHS < unit {
        return 0;
    }
    for n in 0..top {
        if bytes[n * 10 + 9] != unit {
            return n;
        }
    }
    top
}

// The effects that are taken with the first: those of its kind and unit. The scan for the unit is kind 8's alone, so that the loop over the effects asks
// for the kind and for nothing else.
fn run_of(most: u32, bytes: &[u8]) -> Run
    ensures in_reach { (result.timing.length ≤ 10) × (result.top ≤ (length bytes.now - 6) / 10) }
    ensures alike { (result.timing ≡ timing_of bytes.now) × (result.top ≡ alike_of bytes.now (min most ((length bytes.now - 6) / 10))) }
{
    let top = reach(most, bytes.len());
    match decoding::kind(bytes) {
        record::TIMED_EFFECT => {
            let unit = decoding::byte_at(bytes, 9);
            Run {
                timing: Timing {
                    kind: record::TIMED_EFFECT,
                    length: 10,
                    clock: terms::clock_of(unit),
                },
                top: with_unit(unit, top, bytes),
            }
        }
        _ => Run {
            timing: Timing {
                kind: record::EFFECT,
                length: 9,
                clock: terms::clock_of(unit::SECONDS),
            },
            top,
        },
    }
}

// The effect that the bytes begin with, if it is of a kind of records and has no fault but for its unit.
#[inline(always)]
fn sound_effect(record_kind: u8, targets: u16, kind: u8, next: u32, p: &[u8]) -> Option<Effect>
    ensures { MatchOption result (sound record_kind targets kind next p.now ≡ false) (λ e. (sound record_kind targets kind next p.now ≡ true) × (e.target ≡ field p.now 1 2) × (e.intensity ≡ field p.now 3 4) × (e.duration ≡ field p.now 7 2)) }
{
    let target = decoding::half_at(p, 1);
    let intensity = decoding::word_at(p, 3);
    let duration = decoding::half_at(p, 7);
    if decoding::kind(p) == record_kind
        && faults::effect_fault(targets, kind, next, target, intensity, duration).is_ok()
    {
        Some(Effect {
            target,
            intensity,
            duration,
        })
    } else {
        None
    }
}

// The sum of a target grows by the share of the outcome's frequency that a chance takes.
#[inline(always)]
fn add_share(b: Branch, i: usize, chance: u32, sums: &mut [u64; 256])
    requires { i < most_targets }
    ensures { sums.new ≡ set sums.old i (up_to most64 (get_or sums.old i 0) (share_of b.frequency chance)) }
{
    sums[i] = rows::sum_after(sums[i], b.frequency, chance);
}

// An effect on a target: its margin grows, and its sum and its mark go by the chance that a rule gives. How many effects no rule judged, 0 or 1. Of the
// declared targets at most MOST_TARGETS have a row; the others count as places of people, and nothing of them is kept. People are told apart first: the other
// classes and the domino list are not asked for on their way.
#[inline(always)]
fn add_effect(b: Branch, kind: u8, clock: Clock, e: Effect, rows: &mut Rows) -> u32
    requires { JudgedAlike kind b.kind }
    ensures { Added (effect_on clock) b e.target e.intensity e.duration rows.old.sums rows.old.margins rows.old.facts result rows.new.sums rows.new.margins rows.new.facts }
{
    if MOST_TARGETS <= e.target {
        return 0;
    }
    let i = e.target as usize;
    rows.margins[i] = rows::margin_after(rows.margins[i], b.above);
    let facts = rows.facts[i];
    let target = rows::unpack_facts(facts);
    // every effect on people is judged, and no place of people is on the domino list
    if target.class == class::PEOPLE {
        let chance = vulnerability::effect(clock, target, kind, e.intensity, e.duration);
        add_share(b, i, chance.unwrap_or(0), &mut rows.sums);
        return 0;
    }
    // a flash fire harms people alone
    if kind == outcome::FLASH_FIRE {
        return 0;
    }
    match vulnerability::effect(clock, target, kind, e.intensity, e.duration) {
        Some(chance) => {
            add_share(b, i, chance, &mut rows.sums);
            let marked = rows::mark(facts, chance, b.leak);
            if marked != facts {
                rows.facts[i] = marked;
            }
            0
        }
        None => 1,
    }
}

// The place goes on by a record's length while sixteen bytes are read: the library's `chunks` gives no bytes past a record.
// Takes effects of a run, in an outcome's branch, up to the first that is unsound, judging them as those of a kind whose effects are judged alike. Inlined, as
// what it calls, so that each call has a loop in which the kind is known.
#[inline(always)]
fn take_run(
    b: Branch,
    kind: u8,
    run: Run,
    targets: u16,
    before: u32,
    bytes: &[u8],
    rows: &mut Rows,
) -> Taken
    requires judged_alike { JudgedAlike kind b.kind }
    requires in_reach { (run.timing.length ≤ 10) × (run.top ≤ (length bytes.now - 6) / 10) }
    ensures count_value { (result.count ≡ taken_of (effect_on run.timing.clock) run.timing.kind run.timing.length targets b (figures b.next before rows.old.sums rows.old.margins rows.old.facts) bytes.now run.top) × (result.at ≡ offset run.timing.length result.count) }
    ensures facts_after { figures result.next result.unjudged rows.new.sums rows.new.margins rows.new.facts ≡ after_effects (effect_on run.timing.clock) b (figures b.next before rows.old.sums rows.old.margins rows.old.facts) run.timing.length bytes.now result.count }
{
    let timing = run.timing;
    let mut taken = Taken {
        count: 0,
        at: 0,
        next: b.next,
        unjudged: before,
    };
    for _ in 0..run.top {
        let p = &bytes[taken.at..taken.at + 16];
        let Some(e) = sound_effect(timing.kind, targets, b.kind, taken.next, p) else {
            break;
        };
        let missed = add_effect(b, kind, timing.clock, e, rows);
        taken = Taken {
            count: taken.count + 1,
            at: taken.at + timing.length,
            next: e.target as u32 + 1,
            unjudged: taken.unjudged.saturating_add(missed),
        };
    }
    taken
}

// Takes the effects that the bytes begin with, in an outcome's branch, up to the first that is unsound or timed otherwise than the first. The kind of the
// outcome is the same for all of them: each arm is a loop of its own, in which the rule is known. A fire is judged as a pool fire, and an outcome of another
// kind harms nothing.
pub fn take_effects(
    b: Branch,
    targets: u16,
    most: u32,
    before: u32,
    bytes: &[u8],
    rows: &mut Rows,
) -> Taken
    ensures count_value { (result.count ≡ taken_of (effect_on (timing_of bytes.now).clock) (timing_of bytes.now).kind (timing_of bytes.now).length targets b (figures b.next before rows.old.sums rows.old.margins rows.old.facts) bytes.now (alike_of bytes.now (min most ((length bytes.now - 6) / 10)))) × (result.at ≡ offset (timing_of bytes.now).length result.count) }
    ensures facts_after { figures result.next result.unjudged rows.new.sums rows.new.margins rows.new.facts ≡ after_effects (effect_on (timing_of bytes.now).clock) b (figures b.next before rows.old.sums rows.old.margins rows.old.facts) (timing_of bytes.now).length bytes.now result.count }
{
    let run = run_of(most, bytes);
    match b.kind {
        outcome::POOL_FIRE..=outcome::FIREBALL => {
            take_run(b, outcome::POOL_FIRE, run, targets, before, bytes, rows)
        }
        outcome::FLASH_FIRE => take_run(b, outcome::FLASH_FIRE, run, targets, before, bytes, rows),
        outcome::EXPLOSION => take_run(b, outcome::EXPLOSION, run, targets, before, bytes, rows),
        _ => take_run(b, outcome::NO_EFFECT, run, targets, before, bytes, rows),
    }
}

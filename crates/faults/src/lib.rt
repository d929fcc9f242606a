// The fault of a record where none of a study's bounds is compared (document 01, "Numbers the desk says no with"): `Ok` where it has none.
#![tactic(auto)]

ghost use Rattle.std.specs.Prelude.{◌≡◌};
ghost use Rattle.numeric.specs.Choice.{pick, if_eq, if_lt};
ghost use Rattle.terms.specs.Terms.{tenths_unit};
ghost use Rattle.state.specs.Refusals.{number_of, refusal_in};
ghost use Rattle.model.specs.Faults.{order_fault, naming_fault, effect_fault, closing_fault};
ghost use Rattle.model.specs.Verdict.{field};
ghost use Rattle.decoding.specs.Effects.{unit_of};

use state::{Core, Refusal, record};
use terms::{outcome, unit};

// Refused for a reason, unless something holds.
pub fn check(holds: bool, why: Refusal) -> Result<(), Refusal>
    ensures { refusal_in result ≡ pick holds 0 (number_of why) }
{
    if holds { Ok(()) } else { Err(why) }
}

// A record the order doesn't allow here, by the numbers that the definition takes. Each case returns: one test at the end, of a flag, takes 1 to 2 % more instructions.
#[tactic(auto, unfolding(model::specs::Faults::order_fault, numeric::specs::Choice::if_eq, numeric::specs::Choice::if_lt))]
pub fn order_fault(records: u32, left: u16, trees: u8, scenarios: u32, k: u8) -> Result<(), Refusal>
    ensures { refusal_in result ≡ order_fault records left trees scenarios k }
{
    if records == 0 {
        return check(k == record::OPENING, Refusal::Order);
    }
    if 0 < left {
        return check(k == record::EFFECT, Refusal::Order);
    }
    if 0 < trees {
        return check(
            matches!(k, record::BRANCHING | record::OUTCOME),
            Refusal::Order,
        );
    }
    match k {
        record::TARGET => check(scenarios == 0, Refusal::Order),
        record::LEAK | record::CLOSING => Ok(()),
        _ => Err(Refusal::Order),
    }
}

// A target whose number isn't the next.
#[tactic(auto, unfolding(numeric::specs::Choice::if_eq))]
pub fn number_fault(number: u16, targets: u16) -> Result<(), Refusal>
    ensures { refusal_in result ≡ if_eq number targets 0 4 }
{
    check(number == targets, Refusal::Numbering)
}

#[tactic(auto, unfolding(model::specs::Faults::naming_fault, numeric::specs::Choice::if_lt))]
fn naming_fault(targets: u16, next: u32, t: u16) -> Result<(), Refusal>
    ensures { refusal_in result ≡ naming_fault targets next t }
{
    check(next <= t as u32 && t < targets, Refusal::Numbering)
}

// The fault of an effect but for its place. A fire lasts; of the others only a flash fire's intensity is bounded.
#[tactic(auto, unfolding(model::specs::Faults::effect_fault, numeric::specs::Choice::if_eq, numeric::specs::Choice::if_le))]
pub fn effect_fault(
    targets: u16,
    kind: u8,
    next: u32,
    t: u16,
    intensity: u32,
    duration: u16,
) -> Result<(), Refusal>
    ensures { refusal_in result ≡ effect_fault targets kind next t intensity duration }
{
    let fits = if kind <= outcome::FIREBALL {
        duration != 0
    } else {
        duration == 0 && (kind != outcome::FLASH_FIRE || intensity <= 1)
    };
    check(fits, Refusal::Field)?;
    naming_fault(targets, next, t)
}

// The same of its bytes. A last byte that is no unit comes before all others.
#[tactic(auto, unfolding(numeric::specs::Choice::if_lt))]
pub fn own_effect(targets: u16, kind: u8, next: u32, p: &[u8]) -> Result<(), Refusal>
    ensures { refusal_in result ≡ if_lt tenths_unit (unit_of p.now) 3 (effect_fault targets kind next (field p.now 1 2) (field p.now 3 4) (field p.now 7 2)) }
{
    check(decoding::unit(p) <= unit::TENTHS, Refusal::Field)?;
    let t = decoding::half_at(p, 1);
    let intensity = decoding::word_at(p, 3);
    let duration = decoding::half_at(p, 7);
    effect_fault(targets, kind, next, t, intensity, duration)
}

#[tactic(auto, unfolding(model::specs::Faults::closing_fault, numeric::specs::Choice::if_eq))]
fn closing_fault(records: u32, leaks: u64, count: u32, sum: u64) -> Result<(), Refusal>
    ensures { refusal_in result ≡ closing_fault records leaks count sum }
{
    check(
        u64::from(count) == u64::from(records) + 1 && sum == leaks,
        Refusal::ClosingDiffers,
    )
}

// A closing record whose count, with itself, or whose sum is another than the study's.
pub fn own_closing(c: Core, p: &[u8]) -> Result<(), Refusal>
    ensures { refusal_in result ≡ closing_fault c.counts.records c.counts.leaks (field p.now 1 4) (field p.now 5 8) }
{
    let count = decoding::word_at(p, 1);
    let sum = decoding::long_at(p, 5);
    closing_fault(c.counts.records, c.counts.leaks, count, sum)
}

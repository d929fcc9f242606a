// The chance of death at a place of people.
#![tactic(auto)]

ghost use Rattle.std.specs.Prelude.{◌≡◌, ◌+◌, ◌*◌, ◌/◌, min};
ghost use Rattle.log2.specs.Logarithm.{logarithm};
ghost use Rattle.probit.specs.Chance.{chance_of};
ghost use Rattle.terms.specs.Scales.{standard};
ghost use Rattle.people.specs.Death.{fire_probit_by, setting_share, fire_death_by, flash_death, blast_death};

use terms::setting;

// (4 L(Q) + 3 L(t)) × 693,147 / 300, rounded down.
fn dose(q: u32, t: u32) -> u64
    ensures { result ≡ (4 * logarithm q + 3 * logarithm t) * 693147 / 300 }
{
    let heat = log2::l(q) as u64;
    let time = log2::l(t) as u64;
    (4 * heat + 3 * time) * 693_147 / 300
}

// Outdoors, 14 hundredths of the probit's chance.
#[tactic(auto, unfolding(crate::specs::Death::setting_share, numeric::specs::Choice::if_eq))]
fn in_setting(setting: u8, chance: u32) -> u32
    ensures { result ≡ setting_share setting chance }
{
    match setting {
        setting::OUTDOORS => ((chance as u64) * 14 / 100) as u32,
        _ => chance,
    }
}

// The chance by the probit of a fire. Called, not inlined: in a loop over effects the compiler makes a branch of the probit's difference, which may lie below
// nought, and no processor guesses it (docs/DESIGN-PASS.md).
#[tactic(auto, unfolding(crate::specs::Death::fire_probit_by))]
#[inline(never)]
fn by_probit(constant: u32, q: u32, t: u32) -> u32
    ensures { result ≡ chance_of (fire_probit_by standard constant q t) }
{
    probit::chance(dose(q, t), constant)
}

// Fire: heat in W/m² for a duration. The longest time that counts and the probit's constant are the clock's, each by itself, as in `fire_death_by`.
#[tactic(auto, unfolding(crate::specs::Death::fire_death_by, numeric::specs::Choice::if_eq, numeric::specs::Choice::if_le))]
pub fn fire(longest: u16, constant: u32, setting: u8, q: u32, duration: u16) -> u32
    ensures { result ≡ fire_death_by standard longest constant setting q duration }
{
    if 35_000 <= q {
        return 1_000_000;
    }
    if setting == setting::INDOORS || q == 0 {
        return 0;
    }
    let chance = by_probit(constant, q, duration.min(longest) as u32);
    in_setting(setting, chance)
}

// Flash fire: inside the lower flammable limit or not.
#[tactic(auto, unfolding(crate::specs::Death::flash_death, numeric::specs::Choice::if_eq))]
pub fn flash(inside: u32) -> u32
    ensures { result ≡ flash_death inside }
{
    if inside == 1 { 1_000_000 } else { 0 }
}

// Explosion: overpressure in Pa.
#[tactic(auto, unfolding(crate::specs::Death::blast_death, numeric::specs::Choice::if_eq, numeric::specs::Choice::if_le))]
pub fn blast(setting: u8, pa: u32) -> u32
    ensures { result ≡ blast_death setting pa }
{
    match (setting, pa) {
        (_, 30_000..) => 1_000_000,
        (setting::INDOORS, 10_000..) => 25_000,
        _ => 0,
    }
}

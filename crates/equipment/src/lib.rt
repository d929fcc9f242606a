// The chance of damage to equipment.
#![tactic(auto)]

ghost use Rattle.std.specs.Prelude.{◌≡◌, true, false, ◌+◌, ◌*◌, ◌/◌, ◌^◌, ◌<◌, ◌≤◌};
ghost use Rattle.numeric.specs.Choice.{if_eq, if_lt};
ghost use Rattle.log2.specs.Logarithm.{logarithm};
ghost use Rattle.probit.specs.Chance.{chance_of};
ghost use Rattle.terms.specs.Scales.{standard};
ghost use Rattle.terms.specs.Terms.{pressurised};
ghost use Rattle.equipment.specs.Damage.{blast_row_of, blast_probit_by, blast_damage_by, heat_probit_by, heat_damage_by, sphere_probit_by, fire_damage_by, fire_judged};

use terms::class;

// A row of table D.2 for explosions: what the probit takes off, its factor in hundredths, and the threshold in Pa.
#[derive(Clone, Copy)]
pub struct BlastRow {
    pub constant: u32,
    pub factor: u16,
    pub threshold: u32,
}

// The row of a class in table D.2; pressurised vessels and pipes share one.
#[tactic(auto, unfolding(crate::specs::Damage::blast_row_of, numeric::specs::Choice::if_eq))]
fn blast_row(class: u8) -> BlastRow
    ensures { result ≡ blast_row_of class }
{
    let (constant, factor, threshold) = match class {
        class::ATMOSPHERIC => (9_360_000, 134, 5_170),
        class::TOWER => (12_220_000, 165, 17_000),
        class::MACHINE => (12_420_000, 164, 18_700),
        _ => (14_440_000, 182, 30_000),
    };
    BlastRow {
        constant,
        factor,
        threshold,
    }
}

// factor × L(n) × 693,147 / divisor, rounded down: the logarithm's part of a probit. It is below 2^55 with any tables.
fn scaled_log(factor: u64, n: u32, divisor: u64) -> u64
    requires { (factor < 2 ^ 22) × (0 < divisor) }
    ensures value { result ≡ factor * logarithm n * 693147 / divisor }
    ensures upper_bound { result < 2 ^ 55 }
{
    let log = log2::l(n) as u64;
    factor * log * 693_147 / divisor
}

// The chance by the probit of an explosion.
#[tactic(auto, unfolding(crate::specs::Damage::blast_probit_by))]
fn blast_chance(row: BlastRow, pa: u32) -> u32
    ensures { result ≡ chance_of (blast_probit_by standard row pa) }
{
    let log = scaled_log(row.factor as u64, pa, 25_600);
    probit::chance(log, row.constant)
}

// Explosion: overpressure in Pa on equipment of a class.
#[tactic(auto, unfolding(crate::specs::Damage::blast_damage_by, numeric::specs::Choice::if_lt))]
pub fn blast(class: u8, pa: u32) -> u32
    ensures { result ≡ blast_damage_by standard (blast_row_of class) pa }
{
    let row = blast_row(class);
    if pa < row.threshold {
        0
    } else {
        blast_chance(row, pa)
    }
}

// The chance by the probit of a fire. Called, not inlined, as that of people.
#[tactic(auto, unfolding(crate::specs::Damage::heat_probit_by))]
#[inline(never)]
fn heat_chance(q: u32, volume: u32) -> u32
    ensures { result ≡ chance_of (heat_probit_by standard q volume) }
{
    let heat = scaled_log(2_083_416, q, 256_000_000);
    let size = 4_925_949 * (volume as u64) / 100_000;
    probit::chance(heat + size, 20_094_547)
}

// Fire: heat in W/m² on a vessel or pipe at atmospheric pressure. The time that it has to exceed goes by the clock.
#[tactic(auto, unfolding(crate::specs::Damage::heat_damage_by, numeric::specs::Choice::if_lt))]
pub fn heat(limit: u16, volume: u32, q: u32, duration: u16) -> u32
    ensures { result ≡ heat_damage_by standard limit volume q duration }
{
    if 15_000 < q && limit < duration {
        heat_chance(q, volume)
    } else {
        0
    }
}

// Whether a pressurised vessel has a volume in m³ that the probit of a fire goes by.
#[tactic(auto, unfolding(numeric::specs::Choice::if_eq, numeric::specs::Choice::if_lt))]
fn has_root(volume: u32) -> bool
    ensures { result ≡ if_eq volume 0 false (if_lt 10000 volume false true) }
{
    matches!(volume, 1..=10_000)
}

// Whether a fire is judged on a target of a class and a volume: not on towers and machines, nor on a pressurised vessel without a root.
#[tactic(auto, unfolding(crate::specs::Damage::fire_judged, numeric::specs::Choice::if_eq, numeric::specs::Choice::if_lt))]
pub fn judged_in_fire(class: u8, volume: u32) -> bool
    ensures { result ≡ fire_judged class volume }
{
    match class {
        class::PRESSURISED => has_root(volume),
        class::TOWER | class::MACHINE => false,
        _ => true,
    }
}

// What the probit of a fire takes off for a pressurised vessel of a root.
fn sphere_size(root: u32) -> u32
    requires { root ≤ 1342 }
    ensures { result ≡ 16336715 * root / 1000 }
{
    (16_336_715 * (root as u64) / 1_000) as u32
}

// The chance by the probit of a fire for a pressurised vessel.
#[tactic(auto, unfolding(crate::specs::Damage::sphere_probit_by))]
fn sphere_chance(q: u32, volume: u32) -> u32
    ensures { result ≡ chance_of (sphere_probit_by standard q volume) }
{
    let heat = scaled_log(1_749_109, q, 256_000_000);
    let size = sphere_size(volumes::root(volume));
    probit::chance(457_583 + heat, size)
}

// Fire: heat in W/m² on a pressurised vessel. The root of its volume is looked up past both lines alone.
#[tactic(auto, unfolding(crate::specs::Damage::fire_damage_by, crate::specs::Damage::fire_judged, crate::specs::Damage::fire_chance_by, crate::specs::Damage::sphere_damage_by, numeric::specs::Choice::if_eq, numeric::specs::Choice::if_lt))]
pub fn sphere(limit: u16, volume: u32, q: u32, duration: u16) -> u32
    ensures { result ≡ (fire_damage_by standard limit pressurised volume q duration).chance }
{
    if 40_000 < q && limit < duration && has_root(volume) {
        sphere_chance(q, volume)
    } else {
        0
    }
}

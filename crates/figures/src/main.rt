// Prints the figures of document 01, "Figures on both sides", that speak of branches, logarithms and chances, and those of document 02, requests P1, P2 and P6.
#![tactic(auto)]

use std::io;
use terms::{Target, class, outcome, setting, unit};

// A row: its name, its numbers and a word on them, each part written as it comes.
fn row(rt: &impl Print, name: &str, numbers: &[u64], word: &str) -> io::Result<()> {
    rt.print(name)?;
    for n in numbers {
        print!(rt; " {n}")?;
    }
    if !word.is_empty() {
        rt.print(word)?;
    }
    rt.print("\n")
}

// A frequency and the chance of the first branch; both branches.
fn branches(rt: &impl Print) -> io::Result<()> {
    for (frequency, chance) in [(1_u64, 500_000_u32), (10_000_000_000_000, 999_999)] {
        let s = numeric::split(frequency, chance);
        let numbers = [frequency, chance as u64, s.first, s.second];
        row(rt, "branches", &numbers, "")?;
    }
    Ok(())
}

// n; L(n).
fn logarithms(rt: &impl Print) -> io::Result<()> {
    for n in [1_u32, 2, 3] {
        row(rt, "logarithm", &[n as u64, log2::l(n) as u64], "")?;
    }
    Ok(())
}

// A target with no setting.
fn target(class: u8, volume: u32) -> Target {
    Target {
        class,
        setting: setting::INDIVIDUAL,
        volume,
    }
}

fn place_of_people(setting: u8) -> Target {
    Target {
        class: class::PEOPLE,
        setting,
        volume: 0,
    }
}

// A place of people in a pool fire: setting, heat, duration; chance of death. One heat in each setting, and both sides of 35,000 W/m².
fn fires(rt: &impl Print) -> io::Result<()> {
    let clock = terms::clock_of(unit::SECONDS);
    let kind = outcome::POOL_FIRE;
    let rows = [
        (setting::INDIVIDUAL, 12_500_u32, 20_u16),
        (setting::OUTDOORS, 12_500, 20),
        (setting::INDOORS, 12_500, 20),
        (setting::INDIVIDUAL, 34_999, 20),
        (setting::INDIVIDUAL, 35_000, 20),
    ];
    for (setting, q, duration) in rows {
        let chance = vulnerability::fire(clock, place_of_people(setting), q, duration);
        let numbers = [
            kind as u64,
            setting as u64,
            q as u64,
            duration as u64,
            chance as u64,
        ];
        row(rt, "people", &numbers, "")?;
    }
    Ok(())
}

// A place of people in an explosion: setting and overpressure; chance of death.
fn deaths(rt: &impl Print) -> io::Result<()> {
    let kind = outcome::EXPLOSION;
    for (setting, pa) in [
        (setting::INDOORS, 9_999_u32),
        (setting::INDOORS, 10_000),
        (setting::INDOORS, 30_000),
    ] {
        let chance = vulnerability::blast(place_of_people(setting), pa);
        let numbers = [kind as u64, setting as u64, pa as u64, 0, chance as u64];
        row(rt, "people", &numbers, "")?;
    }
    Ok(())
}

// Equipment in explosions: class and overpressure; chance of damage, and whether a leak of 10^7 units puts the equipment on the domino list.
fn blasts(rt: &impl Print, rows: &[(u8, u32)]) -> io::Result<()> {
    for (class, pa) in rows {
        let chance = vulnerability::blast(target(*class, 0), *pa);
        let listed = if vulnerability::listed(chance, 10_000_000) {
            " listed"
        } else {
            ""
        };
        row(
            rt,
            "equipment",
            &[*class as u64, *pa as u64, chance as u64],
            listed,
        )?;
    }
    Ok(())
}

// A pressurised vessel in a pool fire: volume, heat, duration; chance of damage, or that no rule judges it. Both sides of 40,000 W/m², of 600 s, of the volumes
// that are judged, and of a step of K.
fn spheres(rt: &impl Print) -> io::Result<()> {
    let clock = terms::clock_of(unit::SECONDS);
    let rows = [
        (1_u32, 40_000_u32, 601_u16),
        (1, 40_001, 601),
        (1, 60_000, 600),
        (1, 60_000, 601),
        (100, 500_000, 600),
        (100, 500_000, 601),
        (0, 1_000_000, 601),
        (1, 1_000_000, 601),
        (10_000, 1_000_000, 601),
        (10_001, 1_000_000, 601),
        (10_000, 40_001, 601),
        (9_823, 2_000_000, 601),
        (9_824, 2_000_000, 601),
        (0, 0, 1),
        (1, 0, 1),
    ];
    for (volume, q, duration) in rows {
        let chance = vulnerability::fire(clock, target(class::PRESSURISED, volume), q, duration);
        let judged = if equipment::judged_in_fire(class::PRESSURISED, volume) {
            ""
        } else {
            " unjudged"
        };
        let numbers = [volume as u64, q as u64, duration as u64, chance as u64];
        row(rt, "sphere", &numbers, judged)?;
    }
    Ok(())
}

// A probit in millionths; its chance. Both sides of 7.58, 7.65, 7.75 and 7.88, the entries of 99.5 % to 99.8 %.
fn probits(rt: &impl Print) -> io::Result<()> {
    for y in [
        7_579_999_u64,
        7_580_000,
        7_649_999,
        7_650_000,
        7_749_999,
        7_750_000,
        7_879_999,
        7_880_000,
    ] {
        row(rt, "probit", &[y, probit::chance(y, 0) as u64], "")?;
    }
    Ok(())
}

// Fires timed in tenths: class, volume, heat, duration; chance of death or damage. Both sides of 200 tenths for people, and of 6000 for each rule of equipment.
fn tenths(rt: &impl Print) -> io::Result<()> {
    let clock = terms::clock_of(unit::TENTHS);
    let rows = [
        (class::PEOPLE, 0_u32, 9_875_u32, 199_u16),
        (class::PEOPLE, 0, 9_875, 200),
        (class::PEOPLE, 0, 9_822, 200),
        (class::PEOPLE, 0, 9_822, 201),
        (class::PEOPLE, 0, 12_500, 200),
        (class::PEOPLE, 0, 35_000, 1),
        (class::ATMOSPHERIC, 100_000, 15_001, 6_000),
        (class::ATMOSPHERIC, 100_000, 15_001, 6_001),
        (class::PIPE, 100_000, 15_001, 6_000),
        (class::PIPE, 100_000, 15_001, 6_001),
        (class::PRESSURISED, 1, 60_000, 6_000),
        (class::PRESSURISED, 1, 60_000, 6_001),
        (class::TOWER, 1, 60_000, 6_001),
    ];
    for (class, volume, q, duration) in rows {
        let chance = vulnerability::fire(clock, target(class, volume), q, duration);
        let numbers = [
            class as u64,
            volume as u64,
            q as u64,
            duration as u64,
            chance as u64,
        ];
        row(rt, "tenths", &numbers, "")?;
    }
    Ok(())
}

fn main(rt: HostRuntime) -> io::Result<()> {
    branches(&rt)?;
    logarithms(&rt)?;
    fires(&rt)?;
    deaths(&rt)?;
    let both_sides = [
        (class::ATMOSPHERIC, 67_000),
        (class::ATMOSPHERIC, 70_000),
        (class::PRESSURISED, 29_999),
        (class::PRESSURISED, 30_000),
    ];
    blasts(&rt, &both_sides)?;
    spheres(&rt)?;
    probits(&rt)?;
    // a pressurised vessel in explosions of those probits
    let of_probits = [
        (class::PRESSURISED, 179_924),
        (class::PRESSURISED, 179_925),
        (class::PRESSURISED, 186_875),
        (class::PRESSURISED, 186_876),
        (class::PRESSURISED, 197_274),
        (class::PRESSURISED, 197_275),
        (class::PRESSURISED, 212_236),
        (class::PRESSURISED, 212_237),
    ];
    blasts(&rt, &of_probits)?;
    tenths(&rt)
}

// What a study keeps of one target.
#![tactic(auto)]

ghost use Rattle.std.specs.Prelude.{◌≡◌, ◌+◌};
ghost use Rattle.numeric.specs.Share.{share_of};
ghost use Rattle.model.specs.Machine.{up_to, most32, most64, packed_facts, unpacked_facts, marked_facts};

use terms::{Target, class};

// The class of a place of people, as wide as a target's packed facts.
const PEOPLE: u64 = class::PEOPLE as u64;

// A target's facts in one number, the lowest bit its mark on the domino list. Functions, no `From`: neither type is of this crate, and docs/PROMISES.md names them.
#[tactic(auto, unfolding(model::specs::Machine::packed_facts))]
pub fn pack_facts(f: Target) -> u64
    ensures { result ≡ packed_facts f }
{
    let volume = f.volume as u64;
    let class = (f.class % 8) as u64;
    let setting = (f.setting % 4) as u64;
    volume * 64 + class * 8 + setting * 2
}

#[tactic(auto, unfolding(model::specs::Machine::unpacked_facts))]
pub fn unpack_facts(x: u64) -> Target
    ensures { result ≡ unpacked_facts x }
{
    Target {
        class: (x / 8 % 8) as u8,
        setting: (x / 2 % 4) as u8,
        volume: (x / 64 % 4_294_967_296) as u32,
    }
}

// Equipment is marked by an effect that lists it. A mark stays, and most effects find one.
#[tactic(auto, unfolding(model::specs::Machine::marked_facts, numeric::specs::Choice::if_eq))]
pub fn mark(x: u64, chance: u32, leak: u64) -> u64
    ensures { result ≡ marked_facts x chance leak }
{
    if x % 2 == 0 && x / 8 % 8 != PEOPLE && vulnerability::listed(chance, leak) {
        x / 2 * 2 + 1
    } else {
        x
    }
}

// A target's sum after an effect of a chance, in an outcome of a frequency.
pub fn sum_after(sum: u64, frequency: u64, chance: u32) -> u64
    ensures { result ≡ up_to most64 sum (share_of frequency chance) }
{
    sum.saturating_add(numeric::share(frequency, chance))
}

// Its margin after an effect, in an outcome with branchings above it.
pub fn margin_after(margin: u32, above: u32) -> u32
    ensures { result ≡ up_to most32 margin (above + 1) }
{
    margin.saturating_add(above.saturating_add(1))
}

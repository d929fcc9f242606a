// The fields of a record in its bytes, which other bytes may follow: kind byte first, numbers most significant byte first (document 01, "Records").
#![tactic(auto)]

ghost use Rattle.std.specs.Prelude.{◌≡◌, ◌+◌, get_or};
ghost use Rattle.model.specs.Verdict.{body_length, field, facts_at};
ghost use Rattle.decoding.specs.Effects.{unit_of};

use state::record;
use terms::{Target, unit};

// The length of a kind's body; 0 for an unknown kind. The kinds to 8 are told apart alone: their lengths then fit in one word. One match of all kinds takes up to 10 %
// more instructions for a study.
#[tactic(auto, unfolding(model::specs::Verdict::body_length, numeric::specs::Choice::if_eq))]
pub fn body_length(kind: u8) -> u8
    ensures { result ≡ body_length kind }
{
    if record::TIMED_EFFECT < kind {
        return if kind == record::CURVE_BRANCHING {
            5
        } else {
            0
        };
    }
    match kind {
        record::OPENING | record::BRANCHING => 4,
        record::TARGET | record::EFFECT => 8,
        record::LEAK | record::CLOSING => 12,
        record::OUTCOME => 3,
        record::TIMED_EFFECT => 9,
        _ => 0,
    }
}

// The byte at a place; 0 past the last.
fn byte(p: &[u8], i: usize) -> u8
    ensures { result ≡ get_or p.now i 0 }
{
    p.get(i).copied().unwrap_or(0)
}

// The kind byte.
pub fn kind(p: &[u8]) -> u8
    ensures { result ≡ get_or p.now 0 0 }
{
    byte(p, 0)
}

// The number in one, two, four or eight bytes from a place on. One function for each width: the library's `from_be_bytes` belongs to no trait, and one of our own
// would say each width again.
#[tactic(auto, unfolding(model::specs::Verdict::field))]
pub fn byte_at(p: &[u8], at: u8) -> u8
    ensures { result ≡ field p.now at 1 }
{
    byte(p, at as usize)
}

#[tactic(auto, unfolding(model::specs::Verdict::field))]
pub fn half_at(p: &[u8], at: u8) -> u16
    ensures { result ≡ field p.now at 2 }
{
    let i = at as usize;
    u16::from_be_bytes([byte(p, i), byte(p, i + 1)])
}

#[tactic(auto, unfolding(model::specs::Verdict::field))]
pub fn word_at(p: &[u8], at: u8) -> u32
    ensures { result ≡ field p.now at 4 }
{
    let i = at as usize;
    u32::from_be_bytes([byte(p, i), byte(p, i + 1), byte(p, i + 2), byte(p, i + 3)])
}

#[tactic(auto, unfolding(model::specs::Verdict::field))]
pub fn long_at(p: &[u8], at: u8) -> u64
    ensures { result ≡ field p.now at 8 }
{
    let i = at as usize;
    u64::from_be_bytes([
        byte(p, i),
        byte(p, i + 1),
        byte(p, i + 2),
        byte(p, i + 3),
        byte(p, i + 4),
        byte(p, i + 5),
        byte(p, i + 6),
        byte(p, i + 7),
    ])
}

// The unit of an effect's duration, which kind 6 does not say.
#[tactic(auto, unfolding(crate::specs::Effects::unit_of, numeric::specs::Choice::if_eq))]
pub fn unit(p: &[u8]) -> u8
    ensures { result ≡ unit_of p.now }
{
    if kind(p) == record::TIMED_EFFECT {
        byte_at(p, 9)
    } else {
        unit::SECONDS
    }
}

// Class, setting and volume of a target's record.
pub fn facts(p: &[u8]) -> Target
    ensures { result ≡ facts_at p.now }
{
    Target {
        class: byte_at(p, 3),
        setting: byte_at(p, 4),
        volume: word_at(p, 5),
    }
}

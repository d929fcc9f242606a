// Where the reading of a study stands.
#![tactic(auto)]

mod entering;
mod moving;

ghost use Rattle.std.specs.Prelude.{◌≡◌};
ghost use Rattle.model.specs.Machine.{core, begun, grown, refused_with, number_after, place_after};

pub use entering::{Entered, enter_byte};
pub use moving::moved;
use state::{Core, Reading, Refusal, phase};

// The kind byte: a record begins, or an unknown kind is refused at this byte. The length is that of the kind's body.
#[tactic(auto, unfolding(model::specs::Machine::begun, numeric::specs::Choice::if_eq))]
pub fn begin(h: Reading, kind: u8) -> Reading
    ensures { result ≡ begun h kind }
{
    if decoding::body_length(kind) == 0 {
        return Reading {
            phase: phase::REFUSED,
            have: 0,
            number: Refusal::UnknownKind.number(),
            at: h.place,
            ..h
        };
    }
    Reading {
        phase: phase::OPEN,
        have: 1,
        place: h.place.saturating_add(1),
        start: h.place,
        number: 0,
        at: 0,
    }
}

// One byte more of the body. An `if`, not `saturating_add` and `min`, which take more instructions for each byte.
#[tactic(auto, unfolding(model::specs::Machine::grown))]
pub fn grow(h: Reading) -> Reading
    ensures { result ≡ grown h }
{
    Reading {
        phase: phase::OPEN,
        have: if h.have < 15 { h.have + 1 } else { 15 },
        place: h.place.saturating_add(1),
        number: 0,
        at: 0,
        ..h
    }
}

// A record is refused at its first byte, for any number.
#[tactic(auto, unfolding(model::specs::Machine::refused_with))]
pub fn refuse(h: Reading, number: u8) -> Reading
    ensures { result ≡ refused_with h number }
{
    Reading {
        phase: phase::REFUSED,
        have: 0,
        number,
        at: h.start,
        ..h
    }
}

// The number, which C reads, that a piece of n bytes answers with, from the place before it and the reading after it.
#[tactic(auto, unfolding(model::specs::Machine::number_after, numeric::specs::Choice::if_eq, numeric::specs::Choice::if_lt))]
pub fn piece_number(before: u64, n: u64, h: Reading) -> u8
    ensures { result ≡ number_after before n h }
{
    match h.phase {
        phase::REFUSED => h.number,
        phase::CLOSED if h.place.saturating_sub(before) < n => Refusal::AfterClosing.number(),
        _ => 0,
    }
}

#[tactic(auto, unfolding(model::specs::Machine::place_after, numeric::specs::Choice::if_eq))]
pub fn piece_place(h: Reading) -> u64
    ensures { result ≡ place_after h }
{
    match h.phase {
        phase::REFUSED => h.at,
        _ => h.place,
    }
}

pub fn core_reading(c: Core, h: Reading) -> Core
    ensures { result ≡ core h c.counts c.branch c.tally }
{
    Core { reading: h, ..c }
}

// A byte more of a record that a piece's end cuts.
ghost use Rattle.std.specs.Prelude.{◌≡◌};
ghost use Rattle.reading.specs.Entering.{pending_with, entered_with};

use crate::{begin, core_reading, grow};
use state::{Core, phase};

// The parts that go by value after a byte, and whether it made the record in the pending bytes whole: then it is still to be read. A flag, not an enum: the
// reading goes on with these parts either way.
#[derive(Clone, Copy)]
pub struct Entered {
    pub core: Core,
    pub whole: bool,
}

// One byte more: the first of a record, or one of a record that has begun. Each case stores and returns by itself, which takes the fewest instructions.
#[tactic(auto, unfolding(model::specs::Machine::store, crate::specs::Entering::reading_with, crate::specs::Entering::pending_with, crate::specs::Entering::whole_with, crate::specs::Entering::whole_in, numeric::specs::Choice::if_eq, numeric::specs::Choice::if_le))]
pub fn enter_byte(c: Core, b: u8, p: &mut [u8; 16]) -> Entered
    ensures value { result ≡ entered_with c p.old b }
    ensures p_after { p.new ≡ pending_with c.reading p.old b }
{
    let h = c.reading;
    if h.phase != phase::OPEN {
        return Entered {
            core: c,
            whole: false,
        };
    }
    if h.have == 0 {
        numeric::put(p, 0, b);
        return Entered {
            core: core_reading(c, begin(h, b)),
            whole: false,
        };
    }
    numeric::put(p, h.have as usize, b);
    let grown = grow(h);
    let core = core_reading(c, grown);
    if decoding::body_length(p[0]) <= grown.have.saturating_sub(1) {
        return Entered { core, whole: true };
    }
    Entered { core, whole: false }
}

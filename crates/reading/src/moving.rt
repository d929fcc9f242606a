// Bytes that are read at once: their places count from where the first record begins, until they are moved to where the study has it.
ghost use Rattle.std.specs.Prelude.{◌≡◌};
ghost use Rattle.reading.specs.Moving.{shifted, moved};

use state::{Reading, phase};

// A place among the bytes, where the study stands.
#[tactic(auto, unfolding(numeric::specs::Choice::if_eq))]
fn shifted(first: Reading, n: u64, x: u64) -> u64
    ensures { result ≡ shifted first n x }
{
    if x == 0 {
        first.start
    } else {
        first.place.saturating_add(x.saturating_sub(n))
    }
}

// A reading among the bytes, where the study stands: `first` is its reading where the first record, of n bytes, has been entered.
#[tactic(auto, unfolding(crate::specs::Moving::moved, numeric::specs::Choice::if_eq))]
pub fn moved(first: Reading, n: u64, h: Reading) -> Reading
    ensures { result ≡ moved first n h }
{
    Reading {
        place: shifted(first, n, h.place),
        start: shifted(first, n, h.start),
        at: if h.phase == phase::REFUSED {
            shifted(first, n, h.at)
        } else {
            0
        },
        ..h
    }
}

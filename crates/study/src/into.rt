// A piece is read into the arrays of a study: the part of a call that every form of a study shares. It stays inside the crate, since the arrays show
// sums before the end.
ghost use Rattle.std.specs.Prelude.{◌≡◌, length};
ghost use Rattle.study.specs.View.{state_of};
ghost use Rattle.model.specs.Machine.{state, read_all, number_after, place_after};

use crate::tables::Tables;
use crate::whole::read_on;
use state::Core;

// The answer to a piece: its number and its place. A number, not an enum: C reads it.
#[repr(C)]
#[derive(Clone, Copy)]
pub struct Answer {
    pub number: u8,
    pub place: u64,
}

// What a piece makes of the parts that go by value, and its answer.
#[derive(Clone, Copy)]
pub(crate) struct Fed {
    pub core: Core,
    pub answer: Answer,
}

// Reads all bytes, at each turn as many as it takes, so that no iterator of the library goes along: the parts that go by value afterwards, and the arrays in
// place. The totals of the kinds stand in an array of their own in the loop, and are put back at the end.
pub(crate) fn read_into(c: Core, bytes: &[u8], pending: &mut [u8; 16], tables: &mut Tables) -> Core
    requires { length pending.old ≡ 16 }
    ensures { state_of result pending.new tables.new ≡ read_all (state_of c pending.old tables.old) bytes.now }
{
    let mut core = c;
    let mut kinds = counting::kinds_of(core.tally);
    let mut i = 0;
    while i < bytes.len() {
        let run = read_on(core, bytes, i, pending, tables, &mut kinds);
        core = run.core;
        i = run.at;
    }
    counting::with_kinds(core, &kinds)
}

// The same, with the answer to the piece. The arrays are lent for one lifetime, as the fields of one study are.
pub(crate) fn feed_into<'a, 'b>(
    c: Core,
    bytes: &'a [u8],
    pending: &'b mut [u8; 16],
    tables: &'b mut Tables,
) -> Fed
    requires { length pending.old ≡ 16 }
    ensures { (state_of result.core pending.new tables.new ≡ read_all (state_of c pending.old tables.old) bytes.now)
        × (result.answer.number ≡ number_after c.reading.place (length bytes.now) result.core.reading) × (result.answer.place ≡ place_after result.core.reading) }
{
    let before = c.reading.place;
    let core = read_into(c, bytes, pending, tables);
    let h = core.reading;
    Fed {
        core,
        answer: Answer {
            number: reading::piece_number(before, bytes.len() as u64, h),
            place: reading::piece_place(h),
        },
    }
}

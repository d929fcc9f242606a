// Records that a piece has from the first byte to the last are read where they stand, one after the other.
ghost use Rattle.std.specs.Prelude.{◌≡◌, true, false, List, ℕ, ◌+◌, ◌-◌, ◌<◌, ◌≤◌, length, get_or, take, drop, replicate};
ghost use Rattle.numeric.specs.Choice.{pick};
ghost use Rattle.model.specs.Verdict.{decode};
ghost use Rattle.study.specs.View.{state_of};
ghost use Rattle.model.specs.Machine.{open_phase, core, reading, state, record_read, cleared, step, read_all};
ghost use Rattle.counting.specs.Kinds.{with_kinds};
ghost use Rattle.study.specs.Spans.{Between, Next, length_of, after_first, Records};

use crate::records::{Run, read_other};
use crate::scenarios::{between, entered_at, of_scenario, read_scenarios};
use crate::tables::Tables;
use reading::{Entered, enter_byte};
use state::{Core, Reading};

// Whether a whole record of a known kind begins here, with room for any. The room is asked first: most pieces of a few bytes stop there.
fn next_here(h: Reading, bytes: &[u8]) -> bool
    ensures { result ≡ true → Next h bytes.now }
{
    16 <= bytes.len()
        && between(h)
        && h.place <= 18_446_744_073_709_551_602
        && 0 < decoding::body_length(bytes[0])
}

// The record that begins here is entered whole.
#[tactic(auto, using(model::proofs::CodecLaws::body_most))]
fn entered(c: Core, bytes: &[u8]) -> Core
    requires { Between c.reading }
    ensures { result ≡ core (reading open_phase (length_of bytes.now) (c.reading.place + length_of bytes.now) c.reading.place 0 0) c.counts c.branch c.tally }
{
    let n = decoding::body_length(decoding::kind(bytes)) + 1;
    entered_at(c.counts, c.branch, c.tally, c.reading.place, n)
}

// That sixteen bytes are there stands in six contracts: a type for such bytes would be a slice again after the first record.
// The record that the bytes begin with, which has been entered; after a record of a scenario also those of scenarios that follow it.
fn read_some(c: Core, bytes: &[u8], tables: &mut Tables, kinds: &mut [u64; 6]) -> Run
    requires { 16 ≤ length bytes.now }
    ensures records { Records bytes.now result.at }
    ensures by_index { (q : List ℕ) → state_of (with_kinds result.core kinds.new) (replicate 16 0) tables.new ≡ after_first (state_of (with_kinds c kinds.old) q tables.old) bytes.now result.at }
{
    if of_scenario(decoding::kind(bytes)) {
        return read_scenarios(c, bytes, tables, kinds);
    }
    read_other(c, bytes, &mut tables.rows.facts)
}

// The record that the bytes begin with, which has been entered, and the whole records that follow it. Records have different lengths, so that no iterator of the
// library goes from one to the next.
fn read_records(c: Core, bytes: &[u8], tables: &mut Tables, kinds: &mut [u64; 6]) -> Run
    requires { 16 ≤ length bytes.now }
    ensures records { Records bytes.now result.at }
    ensures by_index { (q : List ℕ) → state_of (with_kinds result.core kinds.new) (replicate 16 0) tables.new ≡ after_first (state_of (with_kinds c kinds.old) q tables.old) bytes.now result.at }
{
    let mut core = c;
    let mut at: usize = 0;
    while 16 <= bytes.len() - at {
        let run = read_some(core, &bytes[at..], tables, kinds);
        at += run.at;
        if !next_here(run.core.reading, &bytes[at..]) {
            return Run { core: run.core, at };
        }
        core = entered(run.core, &bytes[at..]);
    }
    Run { core, at }
}

// The record that begins here is entered whole, or one byte is.
fn enter(direct: bool, c: Core, bytes: &[u8], p: &mut [u8; 16]) -> Entered
    requires { (direct ≡ true → Next c.reading bytes.now) × (0 < length bytes.now) }
    ensures p_len_unchanged { length p.new ≡ length p.old }
    ensures whole_value { direct ≡ true → (result.whole ≡ true) × (result.core ≡ core (reading open_phase (length_of bytes.now) (c.reading.place + length_of bytes.now) c.reading.place 0 0) c.counts c.branch c.tally) }
    ensures bytes_value { direct ≡ false → (l k s m f : List ℕ) → step (state (with_kinds c l) p.old k s m f) (get_or bytes.now 0 0) ≡ pick result.whole (cleared (record_read (state (with_kinds result.core l) p.new k s m f) (decode p.new))) (state (with_kinds result.core l) p.new k s m f) }
{
    if direct {
        return Entered {
            core: entered(c, bytes),
            whole: true,
        };
    }
    enter_byte(c, bytes[0], p)
}

// The bytes that the record stands in: those of the piece, or the pending ones.
fn source<'a>(direct: bool, bytes: &'a [u8], p: &'a [u8; 16]) -> &'a [u8]
    ensures { result.now ≡ pick direct bytes.now p.now }
{
    if direct { bytes } else { p }
}

// How many bytes of the piece were read: those of the records, or one.
fn taken_from(direct: bool, n: usize) -> usize
    ensures { result ≡ pick direct n 1 }
{
    if direct { n } else { 1 }
}

// Reads at least one byte: the whole records from a place on, or one byte and the record that it makes whole. A flag says which, so that the records are read
// in one place, which the compiler then makes part of this code: two calls take 60 to 80 % more instructions in pieces of sixteen bytes.
pub(crate) fn read_on(
    c: Core,
    bytes: &[u8],
    from: usize,
    p: &mut [u8; 16],
    tables: &mut Tables,
    kinds: &mut [u64; 6],
) -> Run
    requires { (from < length bytes.now) × (length p.old ≡ 16) }
    ensures from_lt_at { (from < result.at) × (result.at ≤ length bytes.now) }
    ensures facts_after { state_of (with_kinds result.core kinds.new) p.new tables.new ≡ read_all (state_of (with_kinds c kinds.old) p.old tables.old) (take (result.at - from) (drop from bytes.now)) }
{
    let direct = next_here(c.reading, &bytes[from..]);
    let e = enter(direct, c, &bytes[from..], p);
    if e.whole {
        let here = source(direct, &bytes[from..], p);
        let run = read_records(e.core, here, tables, kinds);
        *p = [0; 16];
        return Run {
            core: run.core,
            at: from + taken_from(direct, run.at),
        };
    }
    Run {
        core: e.core,
        at: from + 1,
    }
}

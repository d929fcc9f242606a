// Reads each study that an argument names whole, cut in two at every place, and byte by byte, with empty pieces between, and compares every answer: the last
// piece's number and place, the totals, each target, the domino list. Document 01 has them the same wherever the bytes are cut.
#![tactic(auto)]

mod file;
mod reports;

ghost use Rattle.std.specs.Prelude.{◌≤◌, length};

use std::io;
use std::rt::Files;
use study::{Study, Taken};

fn whole(bytes: &[u8]) -> Taken {
    Study::fresh().piece(bytes)
}

// In two pieces, with an empty one before each.
fn in_two(bytes: &[u8], at: usize) -> Taken
    requires { at ≤ length bytes.now }
{
    let (front, rest) = bytes.split_at(at);
    let first = after_empty(Study::fresh()).piece(front);
    after_empty(first.study).piece(rest)
}

fn after_empty(s: Study) -> Study {
    s.piece(&[]).study
}

// One byte to a piece, with an empty one before each.
fn byte_by_byte(bytes: &[u8]) -> Taken {
    let mut t = Study::fresh().piece(&[]);
    for byte in bytes.chunks(1) {
        t = after_empty(t.study).piece(byte);
    }
    t
}

// By the answers and the reports, no `==`: a study's fields are its own.
fn same(a: Taken, b: Taken) -> bool {
    a.number == b.number && a.place == b.place && reports::same(a.study, b.study)
}

// The first place inside at which a cut gives another answer.
fn first_difference(bytes: &[u8], t: Taken) -> Option<usize> {
    (1..bytes.len()).find(|at| !same(t, in_two(bytes, *at)))
}

fn compare(rt: &impl Print, name: &str, bytes: &[u8]) -> io::Result<()> {
    rt.print(name)?;
    let t = whole(bytes);
    if let Some(at) = first_difference(bytes, t) {
        return println!(rt; " differs at {at}");
    }
    if same(t, byte_by_byte(bytes)) {
        return rt.println(" agrees");
    }
    rt.println(" differs byte by byte")
}

// Compares the file with a name, or says on standard error why it is not read.
fn compare_named(rt: &(impl Files + Print + Eprint), name: &str) -> io::Result<()> {
    let mut bytes = [0u8; 65536];
    match file::read_named(rt, name, &mut bytes) {
        Ok(n) => compare(rt, name, &bytes[..n]),
        Err(why) => {
            files::fail(rt, name, why);
            Ok(())
        }
    }
}

fn main(rt: HostRuntime) -> io::Result<()> {
    let mut path = [0u8; files::MOST_BYTES];
    for i in 1..usize::MAX {
        match files::argument(&rt, i, &mut path) {
            Some(Ok(name)) => compare_named(&rt, name)?,
            Some(Err(why)) => files::fail(&rt, "argument", why),
            None => break,
        }
    }
    Ok(())
}

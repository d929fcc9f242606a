// Replays lists of calls, each on a fresh study, and prints a line for every answer: first the list on standard input, then that of each file named as an
// argument, with a line `list NAME` before it.
//
// A list is `p`, a length and that many bytes for a piece, `t` for the totals, `g` and a number for one target, `d` and a number n, at most 300, for the domino
// list into n lent numbers that hold 65535 before. Lengths and numbers have two bytes, most significant first. Anything else ends the list with a line
// `bad call`. docs/REPLAY_LIST.md works out the answers to the stored lists.
#![tactic(auto)]

mod answers;
mod calls;
mod line;

use calls::{Call, CallError};
use std::fs::File;
use std::io;
use std::rt::Files;
use study::Study;

// Answers the call, and gives the study after it.
fn answer(rt: &(impl Print + Eprint), study: Study, call: Call<'_>) -> Study {
    match call {
        Call::Piece(bytes) => return answers::piece(rt, study, bytes),
        Call::Totals => answers::totals(rt, study),
        Call::Target(t) => answers::target(rt, study, t),
        Call::Domino(n) => answers::domino(rt, study, n as usize),
    }
    study
}

// A proved loop has to end, and nothing says that a list does: the turns are counted up, to a number that no run reaches.
fn replay<R: io::Read>(
    rt: &(impl Print + Eprint),
    list: &mut R,
    bytes: &mut [u8],
) -> Result<(), CallError> {
    let mut study = Study::fresh();
    for _ in 0..u64::MAX {
        match calls::next_call(list, bytes)? {
            Some(call) => study = answer(rt, study, call),
            None => break,
        }
    }
    Ok(())
}

// The list that a file or a stream has.
fn replay_list<R: io::Read>(rt: &(impl Print + Eprint), list: &mut R) {
    let mut bytes = [0u8; 65536];
    match replay(rt, list, &mut bytes) {
        Ok(()) => {}
        Err(CallError::Bad) => line::text(rt, "bad call\n"),
        Err(CallError::Unread) => {
            let _ = eprintln!(rt; "replay: the list cannot be read");
        }
    }
}

fn title(rt: &(impl Print + Eprint), name: &str) {
    line::text(rt, "list ");
    line::text(rt, name);
    line::end(rt);
}

fn replay_named(rt: &(impl Files + Print + Eprint), name: &str) {
    match File::open(rt, name) {
        Err(why) => files::fail(rt, name, why),
        Ok(mut list) => {
            title(rt, name);
            replay_list(rt, &mut list);
        }
    }
}

fn main(rt: HostRuntime) {
    replay_list(&rt, &mut rt.stdin());
    let mut path = [0u8; files::MOST_BYTES];
    for i in 1..usize::MAX {
        match files::argument(&rt, i, &mut path) {
            Some(Ok(name)) => replay_named(&rt, name),
            Some(Err(why)) => files::fail(&rt, "argument", why),
            None => break,
        }
    }
}

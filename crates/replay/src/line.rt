// The parts of a line, each written as it comes, and no `println!` of a whole line: standard error says which part cannot be written.

pub(crate) fn text(rt: &(impl Print + Eprint), words: &str) {
    if rt.print(words).is_err() {
        let _ = eprintln!(rt; "replay: an answer cannot be written");
    }
}

// A blank and a number.
pub(crate) fn number(rt: &(impl Print + Eprint), n: u64) {
    text(rt, " ");
    let _ = rt.print(n);
}

// A word, a blank and a number.
pub(crate) fn named(rt: &(impl Print + Eprint), name: &str, n: u64) {
    text(rt, name);
    number(rt, n);
}

// A word, a blank, the answer's number, ` at ` and its place.
pub(crate) fn answer(rt: &(impl Print + Eprint), name: &str, n: u8, place: u64) {
    named(rt, name, n as u64);
    named(rt, " at", place);
}

pub(crate) fn end(rt: &(impl Print + Eprint)) {
    text(rt, "\n");
}

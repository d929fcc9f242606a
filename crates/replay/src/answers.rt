// The line of each answer.
use crate::calls::MOST_NUMBERS;
use crate::line;
use state::{TargetReport, Totals};
use study::Study;
use terms::class;

// What each lent number holds before a call for the domino list.
const BEFORE: u16 = 65_535;

// Answers the study after the piece.
pub(crate) fn piece(rt: &(impl Print + Eprint), study: Study, bytes: &[u8]) -> Study {
    let taken = study.piece(bytes);
    line::answer(rt, "piece", taken.number, taken.place);
    line::end(rt);
    taken.study
}

fn total_figures(rt: &(impl Print + Eprint), t: Totals) {
    line::named(rt, " study", t.study as u64);
    line::named(rt, " records", t.records as u64);
    line::named(rt, " leaks", t.leaks);
    line::text(rt, " kinds");
    for kind in t.kinds {
        line::number(rt, kind);
    }
    line::named(rt, " unjudged", t.unjudged as u64);
}

pub(crate) fn totals(rt: &(impl Print + Eprint), study: Study) {
    let t = study.totals();
    line::answer(rt, "totals", t.number, t.place);
    if t.number == 0 {
        total_figures(rt, t);
    }
    line::end(rt);
}

// The grade of a place of people, the mark of equipment on the domino list.
fn judged(rt: &(impl Print + Eprint), r: TargetReport) {
    if r.class == class::PEOPLE {
        line::named(rt, " grade", r.grade as u64);
    } else if r.listed {
        line::text(rt, " domino");
    }
}

pub(crate) fn target(rt: &(impl Print + Eprint), study: Study, t: u16) {
    let r = study.target(t);
    line::answer(rt, "target", r.number, r.place);
    if r.number == 0 {
        line::named(rt, " sum", r.sum);
        line::named(rt, " margin", r.margin as u64);
        judged(rt, r);
    }
    line::end(rt);
}

fn domino_line(rt: &(impl Print + Eprint), study: Study, lent: &mut [u16]) {
    let r = study.domino(lent);
    line::answer(rt, "domino", r.number, r.place);
    if r.number == 0 {
        line::named(rt, " count", r.count as u64);
    }
    line::text(rt, " lent");
    for x in lent {
        line::number(rt, *x as u64);
    }
    line::end(rt);
}

// Into n lent numbers.
pub(crate) fn domino(rt: &(impl Print + Eprint), study: Study, n: usize) {
    let mut lent = [BEFORE; MOST_NUMBERS];
    if n <= MOST_NUMBERS {
        domino_line(rt, study, &mut lent[..n]);
    }
}

// The report of a study as text, line by line.
#![tactic(auto)]

ghost use Rattle.std.specs.Prelude.{◌≡◌, [], ◌∷◌, length, get_or, ◌+◌};
ghost use Rattle.numeric.specs.Choice.{if_eq};
ghost use Rattle.model.specs.Machine.{target_in};
ghost use Rattle.study.specs.View.{view};
ghost use Rattle.lines.specs.Text.{text_of, refused_line};
ghost use Rattle.printing.specs.Report.{kind_lines, closed_lines};
ghost use Rattle.printing.specs.Lines.{lines_of, report_lines};

use lines::Line;
use state::{Refusal, Totals};
use std::cmp::Ordering;
use study::{Study, Taken};

// The answer to a piece whose bytes go on after the closing record.
const AFTER_CLOSING: u8 = Refusal::AfterClosing as u8;

// A refusal prints one line.
fn refused_line_at(n: u8, p: u64, i: u32) -> Line
    ensures { text_of result ≡ get_or (refused_line n p ∷ []) i [] }
{
    match i {
        0 => lines::refused_line(n, p),
        _ => Line::empty(),
    }
}

// The line of a kind of outcome; an empty one past the last kind.
#[tactic(auto, using(crate::proofs::ListLaws::kind_at, crate::proofs::ListLaws::kind_past))]
fn kind_line_at(kinds: [u64; 6], k: u32) -> Line
    ensures { text_of result ≡ get_or (kind_lines kinds) k [] }
{
    match kinds.get(k as usize) {
        Some(total) => lines::kind_line(k as u8, *total),
        None => Line::empty(),
    }
}

// The line of a target, and after the last that of the unjudged effects; an empty one past it.
#[tactic(auto, using(crate::proofs::ListLaws::closed_last, crate::proofs::ListLaws::closed_past))]
fn target_line_at(s: Study, t: Totals, n: u32) -> Line
    ensures { text_of result ≡ get_or (closed_lines (target_in (view s)) t) (7 + n) [] }
{
    match n.cmp(&(t.targets as u32)) {
        Ordering::Less => lines::target_line(n as u16, s.target(n as u16)),
        Ordering::Equal => lines::unjudged_line(t.unjudged),
        Ordering::Greater => Line::empty(),
    }
}

// A line of a closed study's report.
#[tactic(auto, using(crate::proofs::ListLaws::closed_steps))]
fn closed_line_at(s: Study, t: Totals, i: u32) -> Line
    ensures { text_of result ≡ get_or (closed_lines (target_in (view s)) t) i [] }
{
    match i {
        0 => lines::study_line(t),
        1..=6 => kind_line_at(t.kinds, i - 1),
        _ => target_line_at(s, t, i - 7),
    }
}

// A line of the report of a study with these totals.
#[tactic(auto, unfolding(crate::specs::Lines::lines_of, numeric::specs::Choice::if_eq))]
fn line_at(s: Study, t: Totals, i: u32) -> Line
    ensures { text_of result ≡ get_or (lines_of (target_in (view s)) t) i [] }
{
    match t.number {
        0 => closed_line_at(s, t, i),
        number => refused_line_at(number, t.place, i),
    }
}

// A line of the report; an empty one past the last.
#[tactic(auto, using(study::proofs::RunLaws::totals_given), unfolding(crate::specs::Lines::report_lines, numeric::specs::Choice::if_eq))]
pub fn report_line(t: Taken, i: u32) -> Line
    ensures { text_of result ≡ get_or (report_lines t) i [] }
{
    if t.number == AFTER_CLOSING {
        refused_line_at(AFTER_CLOSING, t.place, i)
    } else {
        line_at(t.study, t.study.totals(), i)
    }
}

// How many lines a report with these totals has.
#[tactic(auto, unfolding(numeric::specs::Choice::if_eq))]
fn count_of(t: Totals) -> u32
    ensures { result ≡ if_eq t.number 0 (8 + t.targets) 1 }
{
    match t.number {
        0 => 8 + t.targets as u32,
        _ => 1,
    }
}

// How many lines the report has.
#[tactic(auto, unfolding(crate::specs::Lines::report_lines, numeric::specs::Choice::if_eq))]
pub fn report_length(t: Taken) -> u32
    ensures { result ≡ length (report_lines t) }
{
    if t.number == AFTER_CLOSING {
        1
    } else {
        count_of(t.study.totals())
    }
}

// Reports of the totals, of one target, and of the domino list.
#![tactic(auto)]

mod domino;

ghost use Rattle.std.specs.Prelude.{◌≡◌, min};
ghost use Rattle.numeric.specs.Choice.{if_eq};
ghost use Rattle.terms.specs.Terms.{people};
ghost use Rattle.model.specs.Calls.{no_totals, no_target};
ghost use Rattle.model.specs.Report.{grade_of};
ghost use Rattle.model.specs.Machine.{totals_in, row_report, mark_of};
ghost use Rattle.reporting.specs.Closed.{closed_at};

pub use domino::report_domino;
use state::{Core, Reading, Refusal, Row, TargetReport, Totals, phase};
use terms::class;

// What a report says no with: a number, which is any that a reading may keep, and the place that it names.
#[derive(Clone, Copy)]
pub struct Refused {
    pub number: u8,
    pub place: u64,
}

// The place of a closed study, which its reports name. Other studies have a kept refusal, or are not closed.
#[tactic(auto, unfolding(crate::specs::Closed::closed_at, numeric::specs::Choice::if_eq))]
pub fn closed(h: Reading) -> Result<u64, Refused>
    ensures { result ≡ closed_at h }
{
    match h.phase {
        phase::CLOSED => Ok(h.place),
        phase::REFUSED => Err(Refused {
            number: h.number,
            place: h.at,
        }),
        _ => Err(Refused {
            number: Refusal::NotClosed.number(),
            place: h.place,
        }),
    }
}

fn refused_totals(number: u8, place: u64) -> Totals
    ensures { result ≡ no_totals number place }
{
    Totals {
        number,
        place,
        study: 0,
        records: 0,
        leaks: 0,
        kinds: [0; 6],
        unjudged: 0,
        targets: 0,
    }
}

#[tactic(auto, unfolding(model::specs::Machine::totals_in, crate::specs::Closed::closed_at, numeric::specs::Choice::if_eq))]
pub fn report_totals(c: Core) -> Totals
    ensures { result ≡ totals_in c }
{
    let y = c.tally;
    match closed(c.reading) {
        Ok(place) => Totals {
            number: 0,
            place,
            study: y.study,
            records: c.counts.records,
            leaks: c.counts.leaks,
            // by name, as counting's `kinds_of`: neither of these crates uses the other
            kinds: [y.kind0, y.kind1, y.kind2, y.kind3, y.kind4, y.kind5],
            unjudged: y.unjudged,
            targets: c.counts.targets,
        },
        Err(refused) => refused_totals(refused.number, refused.place),
    }
}

pub fn refused_target(number: u8, place: u64) -> TargetReport
    ensures { result ≡ no_target number place }
{
    TargetReport {
        number,
        place,
        sum: 0,
        margin: 0,
        class: 0,
        grade: 0,
        listed: false,
    }
}

// The grade of a sum at a place of people.
#[tactic(auto, unfolding(model::specs::Report::grade_of, numeric::specs::Choice::if_le))]
fn grade(sum: u64) -> u8
    ensures { result ≡ grade_of sum }
{
    match sum {
        10_000_000_000.. => 6,
        1_000_000_000.. => 5,
        100_000_000.. => 4,
        10_000_000.. => 3,
        1_000_000.. => 2,
        100_000.. => 1,
        _ => 0,
    }
}

// Whether a target's facts are marked.
#[tactic(auto, unfolding(numeric::specs::Choice::if_eq))]
pub fn marked(facts: u64) -> bool
    ensures { result ≡ mark_of facts }
{
    facts % 2 == 1
}

#[tactic(auto, unfolding(numeric::specs::Choice::if_eq))]
fn grade_of_class(class: u8, sum: u64) -> u8
    ensures { result ≡ if_eq class people (grade_of sum) 0 }
{
    match class {
        class::PEOPLE => grade(sum),
        _ => 0,
    }
}

#[tactic(auto, unfolding(model::specs::Machine::row_report))]
pub fn report_row(place: u64, w: Row) -> TargetReport
    ensures { result ≡ row_report place w }
{
    let class = (w.facts / 8 % 8) as u8;
    TargetReport {
        number: 0,
        place,
        sum: w.sum,
        margin: w.margin,
        class,
        grade: grade_of_class(class, w.sum),
        listed: marked(w.facts),
    }
}

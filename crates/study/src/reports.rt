// Reports: nothing but these shows a sum, a total, a margin or a mark, and only of a closed study.
ghost use Rattle.model.specs.Calls.{totals, target, domino, gave_totals, gave_target, gave_domino};
ghost use Rattle.study.specs.Runs.{Called};

use crate::Study;
use state::{DominoReport, Refusal, Row, TargetReport, Totals};

impl Study {
    // The totals of the whole study.
    pub fn totals(self) -> Totals
        ensures { Called self totals (gave_totals result) self }
    {
        reporting::report_totals(self.core)
    }

    // One target: sum, margin, and its grade or whether it is listed.
    pub fn target(self, t: u16) -> TargetReport
        ensures { Called self (target t) (gave_target result) self }
    {
        let place = match reporting::closed(self.core.reading) {
            Ok(place) => place,
            Err(refused) => return reporting::refused_target(refused.number, refused.place),
        };
        if self.core.counts.targets.min(Self::MOST_TARGETS) <= t {
            return reporting::refused_target(Refusal::NoSuchTarget.number(), place);
        }
        let i = t as usize;
        let row = Row {
            sum: self.tables.rows.sums[i],
            margin: self.tables.rows.margins[i],
            facts: self.tables.rows.facts[i],
        };
        reporting::report_row(place, row)
    }

    // The domino list, into the front of a lent list; the rest of it stays, and a refused call writes none.
    pub fn domino(self, list: &mut [u16]) -> DominoReport
        ensures { Called self (domino list.old) (gave_domino result list.new) self }
    {
        // the facts alone are copied: lent from a study by value, all of its tables would be
        let facts = self.tables.rows.facts;
        reporting::report_domino(self.core, &facts, list)
    }
}

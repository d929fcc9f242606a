// The study's calls for programs in other languages (include/riskdesk.h), each with the contract that it has in Rattle.
#![tactic(auto)]

ghost use Rattle.std.specs.Prelude.{◌≡◌};
ghost use Rattle.model.specs.Calls.{piece, totals, target, domino, took_piece, gave_totals, gave_target, gave_domino};
ghost use Rattle.model.specs.Machine.{fresh};
ghost use Rattle.study.specs.Runs.{Called};
ghost use Rattle.study.specs.View.{view};

use state::{DominoReport, TargetReport, Totals};
use study::{Answer, Study};

// A study of which nothing is read yet.
#[unsafe(no_mangle)]
pub extern "C" fn riskdesk_fresh() -> Study
    ensures { view result ≡ fresh }
{
    Study::fresh()
}

// Reads a piece into a study that the caller lends.
#[unsafe(no_mangle)]
pub extern "C" fn riskdesk_feed(study: &mut Study, bytes: &[u8]) -> Answer
    ensures { Called study.old (piece bytes.now) (took_piece result.number result.place) study.new }
{
    study.feed(bytes)
}

// The totals of the whole study.
#[unsafe(no_mangle)]
pub extern "C" fn riskdesk_totals(study: Study) -> Totals
    ensures { Called study totals (gave_totals result) study }
{
    study.totals()
}

// One target.
#[unsafe(no_mangle)]
pub extern "C" fn riskdesk_target(study: Study, t: u16) -> TargetReport
    ensures { Called study (target t) (gave_target result) study }
{
    study.target(t)
}

// The domino list, into the front of a lent list; a refused call writes none.
#[unsafe(no_mangle)]
pub extern "C" fn riskdesk_domino(study: Study, list: &mut [u16]) -> DominoReport
    ensures { Called study (domino list.old) (gave_domino result list.new) study }
{
    study.domino(list)
}

// The version of the layout that the structs have in memory: the header and the bindings say which one they know.
#[unsafe(no_mangle)]
pub extern "C" fn riskdesk_layout() -> u32
    ensures { result ≡ 1 }
{
    1
}

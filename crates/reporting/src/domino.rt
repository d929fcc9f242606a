// The domino report: the marked targets are counted, and their numbers written where the list has room.
ghost use Rattle.std.specs.Prelude.{◌≡◌, List, ℕ, ◌≤◌, length, get_or};
ghost use Rattle.model.specs.Bounds.{most_targets};
ghost use Rattle.model.specs.Calls.{front, no_domino};
ghost use Rattle.model.specs.Sums.{numbers_below};
ghost use Rattle.model.specs.Machine.{state, mark_of, domino_in, list_after};

use crate::{closed, marked};
use state::{Core, DominoReport, MOST_TARGETS, Refusal};

fn refused_domino(number: u8, place: u64) -> DominoReport
    ensures { result ≡ no_domino number place }
{
    DominoReport {
        number,
        place,
        count: 0,
    }
}

// How many of the first n targets are marked.
fn count_marked(facts: &[u64; 256], n: u16) -> usize
    requires { n ≤ most_targets }
    ensures { result ≡ length (numbers_below (λ t. mark_of (get_or facts.now t 0)) n) }
{
    facts[..n as usize].iter().filter(|f| marked(**f)).count()
}

// Their numbers, at the front of the list. The place in the list is counted by hand: a zip with a filter would need the bound of each number in its closure.
#[tactic(auto, using(crate::proofs::MarkLaws::below_none, crate::proofs::MarkLaws::front_none))]
fn fill_marked(facts: &[u64; 256], n: u16, list: &mut [u16])
    requires n_le_most_targets { n ≤ most_targets }
    requires n_in_bounds { length (numbers_below (λ t. mark_of (get_or facts.now t 0)) n) ≤ length list.old }
    ensures { list.new ≡ front (numbers_below (λ t. mark_of (get_or facts.now t 0)) n) list.old }
{
    let mut count: usize = 0;
    for t in 0..n {
        if marked(facts[t as usize]) {
            list[count] = t;
            count += 1;
        }
    }
}

// The list goes into the front of a lent list; the rest of it stays, and a refused call writes none.
#[tactic(auto, unfolding(model::specs::Machine::domino_in, model::specs::Machine::list_after, model::specs::Machine::marked_in, crate::specs::Closed::closed_at, numeric::specs::Choice::if_eq, numeric::specs::Choice::if_le))]
pub fn report_domino(c: Core, facts: &[u64; 256], list: &mut [u16]) -> DominoReport
    ensures value { (q k s m : List ℕ) → result ≡ domino_in (state c q k s m facts.now) (length list.old) }
    ensures list_after { (q k s m : List ℕ) → list.new ≡ list_after (state c q k s m facts.now) list.old }
{
    let place = match closed(c.reading) {
        Ok(place) => place,
        Err(refused) => return refused_domino(refused.number, refused.place),
    };
    let n = c.counts.targets.min(MOST_TARGETS);
    let count = count_marked(facts, n);
    if list.len() < count {
        return refused_domino(Refusal::ListTooShort.number(), place);
    }
    fill_marked(facts, n, list);
    DominoReport {
        number: 0,
        place,
        count,
    }
}

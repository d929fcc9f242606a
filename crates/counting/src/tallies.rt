// The totals of a study.
ghost use Rattle.std.specs.Prelude.{◌≡◌, ℕ, ◌<◌, get_or};
ghost use Rattle.model.specs.Machine.{kind_grown, study_tally};
ghost use Rattle.counting.specs.Kinds.{kinds_of, tally_with};

use state::Tally;

#[tactic(auto, unfolding(model::specs::Machine::study_tally))]
pub(crate) fn tally_study(y: Tally, number: u32) -> Tally
    ensures { result ≡ study_tally y number }
{
    Tally { study: number, ..y }
}

// The total of an outcome's kind grows by its frequency; a number that is no kind has no total. By index: tried with `get_mut`,
// and the check did not find the proof.
#[tactic(auto, using(crate::proofs::KindTotalLaws::kind_set, crate::proofs::KindTotalLaws::kind_none))]
pub(crate) fn grow_kind(kinds: &mut [u64; 6], kind: u8, frequency: u64)
    ensures { (j : ℕ) → j < 6 → get_or kinds.new j 0 ≡ kind_grown kind j frequency (get_or kinds.old j 0) }
{
    let i = kind as usize;
    if i < kinds.len() {
        kinds[i] = kinds[i].saturating_add(frequency);
    }
}

// The six totals of the kinds in an array: which one grows cannot be foreseen. `Tally` has a field for each, of which the machine's definitions speak.
pub fn kinds_of(y: Tally) -> [u64; 6]
    ensures { result ≡ kinds_of y }
{
    [y.kind0, y.kind1, y.kind2, y.kind3, y.kind4, y.kind5]
}

// The totals with those of the kinds from an array.
pub(crate) fn tally_with(y: Tally, kinds: &[u64; 6]) -> Tally
    ensures { result ≡ tally_with kinds.now y }
{
    Tally {
        kind0: kinds[0],
        kind1: kinds[1],
        kind2: kinds[2],
        kind3: kinds[3],
        kind4: kinds[4],
        kind5: kinds[5],
        ..y
    }
}

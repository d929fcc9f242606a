// The reports of two studies, compared.
ghost use Rattle.std.specs.Prelude.{◌≤◌};

use study::Study;

// Each target, and the number after the last.
fn same_targets(a: Study, b: Study, targets: u16) -> bool {
    (0..=targets).all(|t| a.target(t) == b.target(t))
}

// The domino list, into lists of n numbers.
fn same_domino(a: Study, b: Study, n: usize) -> bool
    requires { n ≤ 300 }
{
    let mut x = [65_535u16; 300];
    let mut y = [65_535u16; 300];
    a.domino(&mut x[..n]) == b.domino(&mut y[..n]) && x == y
}

// The domino list goes into lists that are long enough, and into lists that are too short where any equipment is listed.
pub(crate) fn same(a: Study, b: Study) -> bool {
    let totals = a.totals();
    totals == b.totals()
        && same_targets(a, b, totals.targets)
        && same_domino(a, b, 0)
        && same_domino(a, b, 300)
}

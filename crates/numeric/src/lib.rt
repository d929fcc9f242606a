// Arithmetic on frequencies and chances, without overflow, and a store in an array.
#![tactic(auto)]

ghost use Rattle.std.specs.Prelude.{◌≡◌, ◌+◌, ◌-◌, ◌%◌, ◌≤◌, min};
ghost use lib.ListN.{set};
ghost use Rattle.numeric.specs.Choice.{if_lt};
ghost use Rattle.numeric.specs.Share.{certain, share_of, split_of};

// The frequencies of the two branches of a branching.
#[derive(Clone, Copy)]
pub struct Branches {
    pub first: u64,
    pub second: u64,
}

// frequency × chance / 1,000,000 rounded down, for a chance up to 1,000,000. A product that might wrap is taken in two parts.
#[tactic(auto, using(crate::proofs::ShareLaws::share_plain, crate::proofs::ShareLaws::share_parts, crate::proofs::ShareLaws::share_le, crate::proofs::ShareLaws::high_le, crate::proofs::ShareLaws::low_le))]
fn scaled(frequency: u64, chance: u32) -> u64
    requires { chance ≤ certain }
    ensures { result ≡ share_of frequency chance }
{
    let c = chance as u64;
    if frequency <= 18_446_744_073_709 {
        return frequency * c / 1_000_000;
    }
    let high = frequency / 1_000_000 * c;
    let low = frequency % 1_000_000 * c;
    high + low / 1_000_000
}

// The share of a frequency, for every chance. A certain one takes all, which saves the product.
#[tactic(auto, using(crate::proofs::ShareLaws::share_all))]
pub fn share(frequency: u64, chance: u32) -> u64
    ensures { result ≡ share_of frequency chance }
{
    if chance < 1_000_000 {
        scaled(frequency, chance)
    } else {
        frequency
    }
}

// Both branches: the first has its share, the second the rest. No branch of the code hangs on the chance, so that the compiler keeps a chance that is looked up
// in its table.
#[tactic(auto, using(crate::proofs::ShareLaws::share_capped), unfolding(crate::specs::Share::split_of))]
pub fn split(frequency: u64, chance: u32) -> Branches
    ensures { result ≡ split_of frequency chance }
{
    let first = scaled(frequency, chance.min(1_000_000));
    Branches {
        first,
        second: frequency.saturating_sub(first),
    }
}

// A store in an array; nothing past its end. By index: tried with `get_mut`, and the check did not find the proof.
#[tactic(auto, unfolding(crate::specs::Choice::if_lt))]
pub fn put<T: Copy, const N: usize>(list: &mut [T; N], at: usize, x: T)
    ensures { list.new ≡ if_lt at N (set list.old at x) list.old }
{
    if at < N {
        list[at] = x;
    }
}

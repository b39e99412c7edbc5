// The candidates of a split point: the points whose leg is not FAR, the only ones that the search for a pair visits.
ghost use Rattle.std.specs.Prelude.{◌≡◌, cond, eqb};
ghost use Rattle.rules.specs.asks.Legs.{far};
ghost use Rattle.search.specs.asks.Candidates.{CandidatesAsked, CandidatesOf};

use lengths::instance::Instance;
use rules::legs;

// A place for each point, one for 0, which is no point, and one for n + 1.
pub const PLACES: usize = Instance::PLACES + 1;

// 1 for a leg that is not FAR, else 0: no branch.
fn one_if_candidate(leg: u32) -> u16
    ensures { result ≡ cond (eqb leg far) 0 1 }
{
    (leg != legs::FAR) as u16
}

// Lists the candidates in `candidates`, rising, and behind them n + 1, which is none: so the next row is read without
// a test (`next_pair`), and each point has a place there (`first` of `CandidatesOf`). rank[w] is the place of the first
// that is w or above.
pub fn list_candidates(
    n: u16,
    legs: &[u32; Instance::PLACES],
    candidates: &mut [u16; PLACES],
    rank: &mut [u16; PLACES],
)
    requires { CandidatesAsked n candidates.old rank.old }
    ensures { CandidatesOf n legs.now candidates.new rank.new }
{
    let mut count: u16 = 0;
    for x in 1..n + 1 {
        rank[x as usize] = count;
        candidates[count as usize] = x;
        count += one_if_candidate(legs[x as usize]);
    }
    rank[n as usize + 1] = count;
    candidates[count as usize] = n + 1;
}

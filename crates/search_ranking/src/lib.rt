// The ranking of the pool: disk_sector/search.rs, best_disk_fit, step 3.
#![tactic(auto)]

ghost use Rattle.std.specs.Prelude.{◌≡◌, ◌≤◌, replicate};
ghost use Rattle.candidates.specs.Candidates.{max_pairs, no_pair};
ghost use Rattle.search_ranking.specs.Ranking as R;

use candidates::{PairScore, Pool};

pub const MAX_TOP_PAIRS: usize = 24;

// Not one type with Pool of a const size: two lines are shared, and each definition has its record.
// The first pairs of the ranking, best first: n of the places.
// That n is at most MAX_TOP_PAIRS is no ghost field, for the reason of candidates::CandidateSet's n.
#[derive(Clone, Copy)]
pub struct Ranked {
    pub n: usize,
    pub pairs: [PairScore; MAX_TOP_PAIRS],
}

// Whether a stands before b: forced pairs first, then by greater edge score in the total order, lower
// i and lower j.
// Key after key, and not all by `then`: with all keys made first a ranking took twice as long.
fn is_before(a: PairScore, b: PairScore) -> bool
    ensures { result ≡ R.is_before a b }
{
    if a.forced != b.forced {
        return a.forced;
    }
    let ka = floats::total_key(a.edge_score);
    let kb = floats::total_key(b.edge_score);
    if ka != kb {
        return kb < ka;
    }
    a.i.cmp(&b.i).then(a.j.cmp(&b.j)).is_lt()
}

fn unranked() -> Ranked
    ensures { (result.n ≡ 0) × (result.pairs ≡ replicate R.max_top_pairs no_pair) }
{
    let p = PairScore::default();
    let pairs = [p; MAX_TOP_PAIRS];
    Ranked { n: 0, pairs }
}

// Each pair goes down the ranking; the last falls off. By place, on by `continue`: a swap inside the `if` was slower by a third.
pub fn rank(pool: Pool) -> Ranked
    requires { pool.n ≤ max_pairs }
    ensures { result ≡ R.rank pool }
{
    let mut top = unranked();
    for pair in &pool.pairs[..pool.n] {
        let mut carry = *pair;
        let k = top.n;
        for t in 0..k {
            let y = top.pairs[t];
            if !is_before(carry, y) {
                continue;
            }
            top.pairs[t] = carry;
            carry = y;
        }
        if k < MAX_TOP_PAIRS {
            top.pairs[k] = carry;
            top.n = k + 1;
        }
    }
    top
}

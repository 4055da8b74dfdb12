// The test instrument's half of the disk: libfunclines_disk.a, one export for each function that a
// function line 70 to 95 calls; crates/funclines has the other half, and says what both are for.
#![tactic(auto)]

ghost use Rattle.std.specs.Prelude.{◌≡◌, ◌≤◌, length};
ghost use Rattle.data.specs.Data.{DiskSized, max_tanh_pixels};
ghost use Rattle.candidates.specs.Candidates.{max_candidates, max_paired, max_pairs};
ghost use Rattle.search_rows.specs.Rows.{Outlined};

use candidates::{CandidateSet, Forced, PairScore, Pool};
use data::Disk;
use score::{Fit, Trial};
use search::Top;
use search_ranking::Ranked;

// ---- what crosses to C, under the names of tests/funclines.h; `some` is false where there is nothing

#[repr(C)]
#[derive(Clone, Copy)]
pub struct Two {
    pub values: [f32; 2],
}

#[repr(C)]
#[derive(Clone, Copy)]
pub struct Set {
    pub n: usize,
    pub angles: [f32; candidates::MAX_CANDIDATES],
}

#[repr(C)]
#[derive(Clone, Copy, Default)]
pub struct Index {
    pub some: bool,
    pub i: usize,
}

#[repr(C)]
#[derive(Clone, Copy, Default)]
pub struct Pair {
    pub some: bool,
    pub i: usize,
    pub j: usize,
}

#[repr(C)]
#[derive(Clone, Copy)]
pub struct Ranking {
    pub i: u16,
    pub j: u16,
    pub edge_score: f32,
    pub forced: bool,
}

#[repr(C)]
#[derive(Clone, Copy)]
pub struct Pairs {
    pub n: usize,
    pub pairs: [Ranking; candidates::MAX_PAIRS],
}

#[repr(C)]
#[derive(Clone, Copy, Default)]
pub struct Fit9 {
    pub some: bool,
    pub values: [f32; 9],
}

#[repr(C)]
#[derive(Clone, Copy)]
pub struct Leaders {
    pub first: Fit9,
    pub second: Fit9,
}

#[repr(C)]
#[derive(Clone, Copy)]
pub struct Best {
    pub fit: Fit9,
    pub trials: usize,
}

#[repr(C)]
#[derive(Clone, Copy)]
pub struct Sums {
    pub total: f32,
    pub sums: [f32; candidates::MAX_CANDIDATES],
}

// Three rows, 320 places apart, and what else their maker had room for.
#[repr(C)]
#[derive(Clone, Copy)]
pub struct Rows {
    pub sums: [f32; 3],
    pub rows: [f32; search_rows::ROWS],
}

// Functions and no `From`: the callers of the first need its clause, and the others go from C's pair of a flag and a value.
fn candidates_of(s: Set) -> CandidateSet
    ensures { result.n ≡ s.n }
{
    let angles = s.angles;
    CandidateSet { n: s.n, angles }
}

impl From<CandidateSet> for Set {
    fn from(s: CandidateSet) -> Set {
        let angles = s.angles;
        Set { n: s.n, angles }
    }
}

fn forced_of(p: Pair) -> Forced {
    if p.some { Some((p.i, p.j)) } else { None }
}

impl From<Forced> for Pair {
    fn from(f: Forced) -> Pair {
        match f {
            Some((i, j)) => Pair { some: true, i, j },
            None => Pair::default(),
        }
    }
}

fn fit_of(x: [f32; 9]) -> Fit {
    Fit {
        theta1: x[0],
        theta2: x[1],
        width: x[2],
        amp: x[3],
        rms: x[4],
        rel_rms: x[5],
        corr: x[6],
        edge_score: x[7],
        objective: x[8],
    }
}

fn scored_of(f: Fit9) -> Option<Fit> {
    if f.some { Some(fit_of(f.values)) } else { None }
}

impl From<Option<Fit>> for Fit9 {
    fn from(found: Option<Fit>) -> Fit9 {
        match found {
            Some(f) => Fit9 {
                some: true,
                values: [
                    f.theta1,
                    f.theta2,
                    f.width,
                    f.amp,
                    f.rms,
                    f.rel_rms,
                    f.corr,
                    f.edge_score,
                    f.objective,
                ],
            },
            None => Fit9::default(),
        }
    }
}

impl From<Ranking> for PairScore {
    fn from(p: Ranking) -> PairScore {
        PairScore {
            i: p.i,
            j: p.j,
            edge_score: p.edge_score,
            forced: p.forced,
        }
    }
}

impl From<PairScore> for Ranking {
    fn from(p: PairScore) -> Ranking {
        Ranking {
            i: p.i,
            j: p.j,
            edge_score: p.edge_score,
            forced: p.forced,
        }
    }
}

fn pool_of(ps: Pairs) -> Pool
    ensures { result.n ≡ ps.n }
{
    Pool {
        n: ps.n,
        pairs: ps.pairs.map(PairScore::from),
    }
}

fn pairs_of(pool: Pool) -> Pairs {
    let mut pairs = [Ranking::from(pool.pairs[0]); candidates::MAX_PAIRS];
    for (to, pair) in pairs.iter_mut().zip(&pool.pairs) {
        *to = Ranking::from(*pair);
    }
    Pairs { n: pool.n, pairs }
}

impl From<Ranked> for Pairs {
    fn from(top: Ranked) -> Pairs {
        let mut pairs = [Ranking::from(top.pairs[0]); candidates::MAX_PAIRS];
        for (to, pair) in pairs.iter_mut().zip(&top.pairs) {
            *to = Ranking::from(*pair);
        }
        Pairs { n: top.n, pairs }
    }
}

// ---- 70 to 77: candidate angles and their pairs

#[unsafe(no_mangle)]
pub extern "C" fn fl_push_unique(set: Set, angle: f32, min_sep: f32) -> Set
    requires { set.n ≤ max_candidates }
{
    let s = candidates_of(set);
    Set::from(s.push_unique(angle, min_sep))
}

#[unsafe(no_mangle)]
pub extern "C" fn fl_histogram_candidates(
    grad_angles: &[f32],
    grad_weights: &[f32],
    base0: f32,
    base1: f32,
) -> Set
    requires { length grad_weights.now ≡ length grad_angles.now }
{
    Set::from(candidates::histogram_candidates(grad_angles, grad_weights, base0, base1))
}

#[unsafe(no_mangle)]
pub extern "C" fn fl_forced_seed_pair(set: Set, base0: f32, base1: f32) -> Pair
    requires { set.n ≤ max_candidates }
{
    Pair::from(candidates::forced_seed_pair(candidates_of(set), base0, base1))
}

#[unsafe(no_mangle)]
pub extern "C" fn fl_forced_histogram_pair(set: Set, edges: &[f32]) -> Pair
    requires { set.n ≤ length edges.now }
{
    Pair::from(candidates::forced_histogram_pair(candidates_of(set), edges))
}

#[unsafe(no_mangle)]
pub extern "C" fn fl_closest_candidate(set: Set, target: f32) -> Index
    requires { set.n ≤ max_candidates }
{
    match candidates::closest_candidate(candidates_of(set), target) {
        Some(i) => Index { some: true, i },
        None => Index::default(),
    }
}

#[unsafe(no_mangle)]
pub extern "C" fn fl_matches_pair(forced: Pair, i: usize, j: usize) -> bool {
    candidates::matches_pair(forced_of(forced), i, j)
}

#[unsafe(no_mangle)]
pub extern "C" fn fl_build_pair_pool(
    set: Set,
    edges: &[f32],
    total: f32,
    seed: Pair,
    histogram: Pair,
) -> Pairs
    requires n_le_max_paired { set.n ≤ max_paired }
    requires n_in_bounds { set.n ≤ length edges.now }
{
    pairs_of(candidates::build_pair_pool(
        candidates_of(set),
        edges,
        total,
        forced_of(seed),
        forced_of(histogram),
    ))
}

#[unsafe(no_mangle)]
pub extern "C" fn fl_combine_edge_pair(a: f32, b: f32, total: f32) -> f32 {
    candidates::combine_edge_pair(a, b, total)
}

// ---- 80 to 83: the score of a pair

#[unsafe(no_mangle)]
pub extern "C" fn fl_score_pair_cached(
    val_energy: f32,
    vals_centered: &[f32],
    theta0: f32,
    theta1: f32,
    width: f32,
    edge_score: f32,
    h0: &[f32],
    h1: &[f32],
) -> Fit9
    requires h0_len { length h0.now ≡ length vals_centered.now }
    requires h1_len { length h1.now ≡ length vals_centered.now }
    requires vals_centered_len_bound { length vals_centered.now ≤ max_tanh_pixels }
{
    let t = Trial {
        theta0,
        theta1,
        width,
        edge_score,
    };
    Fit9::from(score::score_pair_cached(val_energy, vals_centered, t, h0, h1))
}

#[unsafe(no_mangle)]
pub extern "C" fn fl_precompute_edge_alignments(
    grad_angles: &[f32],
    grad_weights: &[f32],
    set: Set,
) -> Sums
    requires grad_weights_len { length grad_weights.now ≡ length grad_angles.now }
    requires grad_angles_len_bound { length grad_angles.now ≤ max_tanh_pixels }
    requires n_le_max_candidates { set.n ≤ max_candidates }
{
    let mut terms = [0.0f32; data::MAX_TANH_PIXELS];
    let mut sums = [0.0f32; candidates::MAX_CANDIDATES];
    let n = grad_angles.len();
    let total = score::precompute_edge_alignments(
        grad_angles,
        grad_weights,
        candidates_of(set),
        &mut terms[..n],
        &mut sums,
    );
    Sums { total, sums }
}

#[unsafe(no_mangle)]
pub extern "C" fn fl_fit_is_better(a: &[f32; 9], b: &[f32; 9]) -> bool {
    score::fit_is_better(fit_of(*a), fit_of(*b))
}

#[unsafe(no_mangle)]
pub extern "C" fn fl_fit_std_errors(
    xs: &[f32],
    ys: &[f32],
    vals_centered: &[f32],
    fit: &[f32; 9],
) -> Two
    requires ys_len { length ys.now ≡ length xs.now }
    requires vals_centered_len { length vals_centered.now ≡ length xs.now }
    requires xs_len_bound { length xs.now ≤ max_tanh_pixels }
{
    let errors = score::fit_std_errors(xs, ys, vals_centered, fit_of(*fit)).errors;
    Two {
        values: [errors.error1, errors.error2],
    }
}

// ---- 90 to 95: the search

#[unsafe(no_mangle)]
pub extern "C" fn fl_best_disk_fit(
    val_energy: f32,
    base0: f32,
    base1: f32,
    xs: &[f32],
    ys: &[f32],
    vals_centered: &[f32],
    grad_angles: &[f32],
    grad_weights: &[f32],
) -> Best
    requires { DiskSized xs.now ys.now vals_centered.now grad_angles.now grad_weights.now }
{
    let d = Disk {
        val_energy,
        xs,
        ys,
        vals_centered,
        grad_angles,
        grad_weights,
    };
    match search::best_disk_fit(d, base0, base1) {
        Ok(r) => Best {
            fit: Fit9::from(Some(r.best)),
            trials: r.trials,
        },
        Err(trials) => Best {
            fit: Fit9::from(None),
            trials,
        },
    }
}

#[unsafe(no_mangle)]
pub extern "C" fn fl_rank(pool: Pairs) -> Pairs
    requires { pool.n ≤ max_pairs }
{
    Pairs::from(search_ranking::rank(pool_of(pool)))
}

#[unsafe(no_mangle)]
pub extern "C" fn fl_insert_top(first: Fit9, second: Fit9, fit: &[f32; 9]) -> Leaders {
    let top = Top {
        first: scored_of(first),
        second: scored_of(second),
    };
    let t = search::insert_top(top, fit_of(*fit));
    Leaders {
        first: Fit9::from(t.first),
        second: Fit9::from(t.second),
    }
}

#[unsafe(no_mangle)]
pub extern "C" fn fl_refine_fit_cached(
    seed: &[f32; 9],
    val_energy: f32,
    xs: &[f32],
    ys: &[f32],
    vals_centered: &[f32],
    grad_angles: &[f32],
    grad_weights: &[f32],
) -> Fit9
    requires { DiskSized xs.now ys.now vals_centered.now grad_angles.now grad_weights.now }
{
    let d = Disk {
        val_energy,
        xs,
        ys,
        vals_centered,
        grad_angles,
        grad_weights,
    };
    let mut rows = [0.0f32; search_rows::ROWS];
    let r = search_refine::refine_fit_cached(d, fit_of(*seed), &mut rows);
    Fit9::from(Some(r.best))
}

#[unsafe(no_mangle)]
pub extern "C" fn fl_edge_weight_total(grad_weights: &[f32]) -> f32 {
    score_edges::edge_weight_total(grad_weights)
}

#[unsafe(no_mangle)]
pub extern "C" fn fl_build_axis_rows(
    xs: &[f32],
    ys: &[f32],
    grad_angles: &[f32],
    grad_weights: &[f32],
    base: f32,
    offsets: &[f32; 3],
    width: f32,
) -> Rows
    requires { Outlined xs.now ys.now grad_angles.now grad_weights.now }
{
    let mut rows = [0.0f32; search_rows::ROWS];
    let sums = search_rows::build_axis_rows(
        xs,
        ys,
        grad_angles,
        grad_weights,
        base,
        offsets,
        width,
        &mut rows,
    );
    Rows { sums, rows }
}

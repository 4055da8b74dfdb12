// The whole disk search: disk_sector/search.rs, insert_top and best_disk_fit. Its step 3 is in
// search_ranking.
#![tactic(auto)]

ghost use Rattle.std.specs.Prelude.{◌≡◌, ◌+◌, ◌*◌, ◌≤◌, ◌<◌, length, take};
ghost use Rattle.data.specs.Disk.{the_disk};
ghost use Rattle.candidates.specs.Candidates.{max_paired, max_pairs};
ghost use Rattle.search.specs.Search as S;
ghost use Rattle.search.specs.Cache as K;

use candidates::{CandidateSet, PairScore, Pool};
use data::Disk;
use score::{Fit, Trial};
use search_ranking::Ranked;
use search_refine::Refined;

// One flat buffer, as that of search_rows: each use cuts n of a row's 320 places out all the same.
// A row for each of the candidates that are paired.
const CACHE: usize = candidates::MAX_PAIRED * data::MAX_TANH_PIXELS;

// The better TOP_FITS = 2 so far, in the order of their arrival among equals.
#[derive(Clone, Copy, Default)]
pub struct Top {
    pub first: Option<Fit>,
    pub second: Option<Fit>,
}

// The leaders, and how many pairs were scored.
#[derive(Drop, Default)]
pub struct Leaders {
    pub top: Top,
    pub trials: usize,
}

// The leaders so far at one width, and which rows the cache holds by then.
#[derive(Drop)]
pub struct Pass {
    pub leaders: Leaders,
    pub filled: [bool; candidates::MAX_PAIRED],
}

// The best fit with the number of trials, or that number alone where nothing is found.
pub type DiskFit = Result<Refined, usize>;

// Whether a fit goes before what stands in a place: a fit that it beats, or none.
fn beats(fit: Fit, place: Option<Fit>) -> bool
    ensures { result ≡ S.beats fit place }
{
    match place {
        Some(v) => score::fit_is_better(fit, v),
        None => true,
    }
}

pub fn insert_top(top: Top, fit: Fit) -> Top
    ensures { result ≡ S.insert_top top fit }
{
    if beats(fit, top.first) {
        return Top {
            first: Some(fit),
            second: top.first,
        };
    }
    if beats(fit, top.second) {
        return Top {
            first: top.first,
            second: Some(fit),
        };
    }
    top
}

// A trial that answers nothing counts too.
fn entered(s: Leaders, answer: Option<Fit>) -> Leaders
    requires { s.trials < 1000 }
    ensures { (result.trials ≡ s.trials + 1) × (result ≡ S.entered s answer) }
{
    let top = match answer {
        Some(fit) => insert_top(s.top, fit),
        None => s.top,
    };
    Leaders {
        top,
        trials: s.trials + 1,
    }
}

// Step 4: the row of candidate c at one width, unless it stands in the cache already. The Rust first
// marks the candidates of all kept pairs; here a row is made when a pair first asks for it.
fn ensure_row(
    d: Disk,
    candidates: CandidateSet,
    width: f32,
    c: usize,
    filled: [bool; candidates::MAX_PAIRED],
    cache: &mut [f32],
) -> [bool; candidates::MAX_PAIRED]
    requires { (c < max_paired) × K.Cached (the_disk d) candidates width filled cache.old }
    ensures { K.Cached (the_disk d.entry) candidates width result cache.new × K.Keeps filled result c }
{
    if filled[c] {
        return filled;
    }
    let b = c * data::MAX_TANH_PIXELS;
    let e = b + d.xs.len();
    score::axis_row(d.xs, d.ys, candidates.angles[c], width, &mut cache[b..e]);
    let mut marked = filled;
    marked[c] = true;
    marked
}

// A pair scored from the rows in the cache.
fn score_cached(
    d: Disk,
    candidates: CandidateSet,
    p: PairScore,
    width: f32,
    cache: &[f32],
) -> Option<Fit>
    requires { (p.i < max_paired) × (p.j < max_paired) × (length cache.now ≡ K.cache_room) }
    ensures { result ≡ K.cached_score (the_disk d.entry) candidates width p cache.now }
{
    let i = p.i as usize;
    let j = p.j as usize;
    let n = d.xs.len();
    let a = i * data::MAX_TANH_PIXELS;
    let ae = a + n;
    let b = j * data::MAX_TANH_PIXELS;
    let be = b + n;
    let t = Trial {
        theta0: candidates.angles[i],
        theta1: candidates.angles[j],
        width,
        edge_score: p.edge_score,
    };
    score::score_pair_cached(
        d.val_energy,
        d.vals_centered,
        t,
        &cache[a..ae],
        &cache[b..be],
    )
}

// Step 5: one ranked pair at one width.
fn try_pair(
    d: Disk,
    pass: Pass,
    candidates: CandidateSet,
    p: PairScore,
    width: f32,
    cache: &mut [f32],
) -> Pass
    requires { (pass.leaders.trials < 1000) × (p.i < max_paired) × (p.j < max_paired)
        × K.Cached (the_disk d) candidates width pass.filled cache.old }
    ensures { let D = the_disk d.entry in K.Cached D candidates width result.filled cache.new
        × (result.leaders.trials ≡ pass.leaders.trials + 1)
        × (result.leaders ≡ S.entered pass.leaders (S.pair_scored D candidates width p)) }
{
    let before = pass.filled;
    let one = ensure_row(d, candidates, width, p.i as usize, before, cache);
    let filled = ensure_row(d, candidates, width, p.j as usize, one, cache);
    let answer = score_cached(d, candidates, p, width, cache);
    let leaders = entered(pass.leaders, answer);
    Pass { leaders, filled }
}

// Step 5: the ranked pairs in their order at one width.
fn try_width(
    d: Disk,
    leaders: Leaders,
    candidates: CandidateSet,
    ranked: Ranked,
    width: f32,
    cache: &mut [f32],
) -> Leaders
    requires { (leaders.trials ≤ 72) × K.Listed ranked × (length cache.old ≡ K.cache_room) }
    ensures { (length cache.new ≡ K.cache_room) × (result.trials ≡ leaders.trials + ranked.n)
        × (result ≡ S.tried_at (the_disk d.entry) candidates (take ranked.n ranked.pairs) width leaders) }
{
    let filled = [false; candidates::MAX_PAIRED];
    let mut pass = Pass { leaders, filled };
    for p in &ranked.pairs[..ranked.n] {
        pass = try_pair(d, pass, candidates, *p, width, cache);
    }
    pass.leaders
}

// Step 5: all widths, the widths outermost.
fn try_all(d: Disk, candidates: CandidateSet, ranked: Ranked) -> Leaders
    requires { K.Listed ranked }
    ensures { (result.trials ≡ 4 * ranked.n)
        × (result ≡ S.tried_all (the_disk d.entry) candidates (take ranked.n ranked.pairs)) }
{
    let mut cache = [0.0f32; CACHE];
    let mut leaders = Leaders::default();
    for width in score::WIDTHS_PX {
        leaders = try_width(d, leaders, candidates, ranked, width, &mut cache);
    }
    leaders
}

// Step 6: a leader refined, and the better of it and what was found so far.
fn lead(d: Disk, s: Refined, seed: Fit) -> Refined
    requires { s.trials < 1000 }
    ensures { (result.trials ≡ s.trials + 24) × (result ≡ S.lead (the_disk d.entry) seed s) }
{
    let mut rows = [0.0f32; search_rows::ROWS];
    let refined = search_refine::refine_fit_cached(d, seed, &mut rows);
    let trials = s.trials + refined.trials;
    if score::fit_is_better(refined.best, s.best) {
        return Refined {
            best: refined.best,
            trials,
        };
    }
    Refined {
        best: s.best,
        trials,
    }
}

// Step 6: the leaders, as many as there are.
fn led(d: Disk, leaders: Leaders) -> DiskFit
    requires { leaders.trials ≤ 96 }
    ensures { result ≡ S.led (the_disk d.entry) leaders }
{
    let trials = leaders.trials;
    let top = leaders.top;
    let Some(v) = top.first else {
        return Err(trials);
    };
    let a = lead(d, Refined { best: v, trials }, v);
    let Some(w) = top.second else {
        return Ok(a);
    };
    Ok(lead(d, a, w))
}

// Steps 1 and 2: the allowed pairs of the candidates, with their edge scores.
fn pool_of(d: Disk, base0: f32, base1: f32, candidates: CandidateSet) -> Pool
    requires { candidates.n ≤ max_paired }
    ensures { (result.n ≤ max_pairs) × (result ≡ S.pool_of (the_disk d.entry) candidates base0 base1) }
{
    let mut edge_align = [0.0f32; candidates::MAX_CANDIDATES];
    let mut terms = [0.0f32; data::MAX_TANH_PIXELS];
    let n = d.xs.len();
    let grad_total = score::precompute_edge_alignments(
        d.grad_angles,
        d.grad_weights,
        candidates,
        &mut terms[..n],
        &mut edge_align,
    );
    let force_seed = candidates::forced_seed_pair(candidates, base0, base1);
    let force_hist = candidates::forced_histogram_pair(candidates, &edge_align);
    candidates::build_pair_pool(candidates, &edge_align, grad_total, force_seed, force_hist)
}

// Steps 1 to 6, for two candidates or more.
fn search_set(d: Disk, base0: f32, base1: f32, candidates: CandidateSet) -> DiskFit
    requires { (2 ≤ candidates.n) × (candidates.n ≤ max_paired) }
    ensures { result ≡ S.searched (the_disk d.entry) candidates base0 base1 }
{
    let pool = pool_of(d, base0, base1, candidates);
    if pool.n == 0 {
        return Err(0);
    }
    let ranked = search_ranking::rank(pool);
    led(d, try_all(d, candidates, ranked))
}

// The search over any disk of at most MAX_TANH_PIXELS pixels.
pub fn best_disk_fit(d: Disk, base0: f32, base1: f32) -> DiskFit
    ensures { result ≡ S.best_disk_fit (the_disk d.entry) base0 base1 }
{
    let b0 = geometry::wrap_pi(base0);
    let b1 = geometry::wrap_pi(base1);
    let candidates = candidates::histogram_candidates(d.grad_angles, d.grad_weights, b0, b1);
    if candidates.n < 2 {
        return Err(0);
    }
    search_set(d, base0, base1, candidates)
}

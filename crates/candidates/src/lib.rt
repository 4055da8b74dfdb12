// Candidate angles and the pool of pairs: disk_sector/candidates.rs.
#![tactic(auto)]

ghost use Rattle.std.specs.Prelude.{◌≡◌, ◌+◌, ◌≤◌, ◌<◌, length, replicate, IfSome};
ghost use Rattle.floats.specs.Ops.{nought};
ghost use Rattle.floats.specs.Library.{hist_bins};
ghost use Rattle.candidates.specs.Candidates as C;

use floats::HIST_BINS;

pub const MAX_CANDIDATES: usize = 64;

// What histogram_candidates finds at most. Pairs are formed of no more.
pub const MAX_PAIRED: usize = 24;

pub const MAX_PAIRS: usize = MAX_PAIRED * (MAX_PAIRED - 1) / 2;

// The bins that are picked at most.
const MAX_PICKS: usize = 8;

// The angles around a seed, in degrees, and the step of the coarse grid.
const OFF_DEGS: [f32; 5] = [-8.0, -4.0, 0.0, 4.0, 8.0];

const GRID_DEG: usize = 30;

// Candidate line angles: their number and their places.
// That n is at most 64 is asked and no ghost field: each definition that builds a set would carry its proof. Tried.
#[derive(Clone, Copy)]
pub struct CandidateSet {
    pub n: usize,
    pub angles: [f32; MAX_CANDIDATES],
}

// A pair of candidates that is kept whatever its score, or none.
pub type Forced = Option<(usize, usize)>;

// The places of the two greatest edge sums.
#[derive(Drop)]
pub struct Tops {
    pub top0: usize,
    pub top1: usize,
}

#[derive(Clone, Copy, Default)]
pub struct PairScore {
    pub i: u16,
    pub j: u16,
    pub edge_score: f32,
    pub forced: bool,
}

// A count and places, as CandidateSet: no heap, and what the places behind n hold is in the definition.
// The allowed pairs in the order in which they are found: n of the places for all pairs.
// That n is at most MAX_PAIRS is asked and no ghost field, for the reason of CandidateSet's n.
#[derive(Drop)]
pub struct Pool {
    pub n: usize,
    pub pairs: [PairScore; MAX_PAIRS],
}

impl CandidateSet {
    pub fn new() -> CandidateSet
        ensures { result ≡ C.new_set }
    {
        CandidateSet {
            n: 0,
            angles: [0.0f32; MAX_CANDIDATES],
        }
    }

    // Whether a kept angle lies within min_sep of a.
    fn is_near(self, a: f32, min_sep: f32) -> bool
        requires { self.n ≤ C.max_candidates }
        ensures { result ≡ C.is_near self.angles self.n a min_sep }
    {
        for kept in &self.angles[..self.n] {
            if geometry::line_delta(a, *kept) <= min_sep {
                return true;
            }
        }
        false
    }

    // Adds the angle, wrapped by PI, unless a kept one lies within min_sep.
    pub fn push_unique(mut self, angle: f32, min_sep: f32) -> CandidateSet
        requires { self.n ≤ C.max_candidates }
        ensures { (result.n ≤ C.max_candidates) × (result.n ≤ self.n + 1) × (result ≡ C.push_unique self angle min_sep) }
    {
        let n = self.n;
        if n >= MAX_CANDIDATES {
            return self;
        }
        let a = geometry::wrap_pi(angle);
        if self.is_near(a, min_sep) {
            return self;
        }
        self.angles[n] = a;
        self.n = n + 1;
        self
    }
}

// The weights of the gradients by their direction.
fn histogram(grad_angles: &[f32], grad_weights: &[f32]) -> [f32; HIST_BINS]
    requires { length grad_weights.now ≡ length grad_angles.now }
    ensures { result ≡ C.histogram (length grad_angles.now) grad_angles.now grad_weights.now (replicate hist_bins nought) }
{
    let mut hist = [0.0f32; HIST_BINS];
    for (angle, weight) in grad_angles.iter().zip(grad_weights) {
        if *weight <= 0.0 {
            continue;
        }
        let idx = floats::bin_of(*angle);
        hist[idx] += *weight;
    }
    hist
}

// A bin is a plain index, asked to be below 72: a struct for it would be opened at each read.
fn prev_bin(i: usize) -> usize
    requires { i < hist_bins }
    ensures { (result < hist_bins) × (result ≡ C.prev_bin i) }
{
    if i == 0 {
        return HIST_BINS - 1;
    }
    i - 1
}

fn next_bin(i: usize) -> usize
    requires { i < hist_bins }
    ensures { (result < hist_bins) × (result ≡ C.next_bin i) }
{
    if i + 1 == HIST_BINS {
        return 0;
    }
    i + 1
}

// 1/4, 1/2, 1/4 around the circle. By place: each bin reads those on either side.
fn smooth_bins(hist: &[f32; HIST_BINS]) -> [f32; HIST_BINS]
    ensures { result ≡ C.smoothed hist.now }
{
    let mut smooth = [0.0f32; HIST_BINS];
    for i in 0..HIST_BINS {
        let prev = prev_bin(i);
        let next = next_bin(i);
        smooth[i] = 0.25 * hist[prev] + 0.5 * hist[i] + 0.25 * hist[next];
    }
    smooth
}

fn greatest(smooth: &[f32; HIST_BINS]) -> f32
    ensures { result ≡ C.greatest smooth.now }
{
    let mut max_v = 0.0f32;
    for v in smooth {
        max_v = floats::max(max_v, *v);
    }
    max_v
}

// The greater of an unused bin and the best so far.
fn better_bin(smooth: &[f32; HIST_BINS], i: usize, best: Option<usize>) -> Option<usize>
    requires { (i < hist_bins) × IfSome best (λ b. b < hist_bins) }
    ensures { IfSome result (λ b. b < hist_bins) × (result ≡ C.greater_bin smooth.now i best) }
{
    let Some(b) = best else {
        return Some(i);
    };
    if smooth[i] > smooth[b] {
        return Some(i);
    }
    best
}

// The greatest unused bin, the lower on a tie; none where every bin is used. By place: bins are compared by their places.
fn best_bin(smooth: &[f32; HIST_BINS], used: &[bool; HIST_BINS]) -> Option<usize>
    ensures { IfSome result (λ b. b < hist_bins) × (result ≡ C.best_bin smooth.now used.now) }
{
    let mut best = None;
    for i in 0..HIST_BINS {
        if used[i] {
            continue;
        }
        best = better_bin(smooth, i, best);
    }
    best
}

fn bin_angle(best_i: usize) -> f32
    requires { best_i < hist_bins }
    ensures { result ≡ C.bin_angle best_i }
{
    (floats::count_f32(best_i) + 0.5) * floats::PI / floats::count_f32(HIST_BINS)
}

// At most MAX_PICKS, until one is below 0.12 of the maximum. A pick that is dropped counts.
fn peaks(smooth: &[f32; HIST_BINS], max_v: f32) -> CandidateSet
    ensures { (result.n ≤ C.max_picks) × (result ≡ C.peaks smooth.now max_v) }
{
    let mut used = [false; HIST_BINS];
    let mut candidates = CandidateSet::new();
    for _ in 0..MAX_PICKS {
        let Some(best_i) = best_bin(smooth, &used) else {
            break;
        };
        if smooth[best_i] < max_v * 0.12 {
            break;
        }
        used[best_i] = true;
        candidates = candidates.push_unique(bin_angle(best_i), floats::to_radians(4.0));
    }
    candidates
}

fn histogram_peaks(smooth: &[f32; HIST_BINS]) -> CandidateSet
    ensures { (result.n ≤ C.max_picks) × (result ≡ C.histogram_peaks smooth.now) }
{
    let max_v = greatest(smooth);
    if max_v > 0.0 {
        return peaks(smooth, max_v);
    }
    CandidateSet::new()
}

// -8, -4, 0, 4 and 8 degrees around a seed.
fn around(set: CandidateSet, seed: f32) -> CandidateSet
    requires { set.n ≤ 32 }
    ensures { (result.n ≤ set.n + 5) × (result ≡ C.around set seed) }
{
    let mut candidates = set;
    for off_deg in OFF_DEGS {
        let off = floats::to_radians(off_deg);
        candidates = candidates.push_unique(seed + off, floats::to_radians(1.0));
    }
    candidates
}

// 0 to 150 degrees by 30. By number: a `step_by` would ask for a measure, and k times the step is as plain.
fn coarse(set: CandidateSet) -> CandidateSet
    requires { set.n ≤ 32 }
    ensures { (result.n ≤ set.n + 6) × (result ≡ C.coarse set) }
{
    let mut candidates = set;
    for k in 0..180 / GRID_DEG {
        let angle = floats::to_radians(floats::count_f32(GRID_DEG * k));
        candidates = candidates.push_unique(angle, floats::to_radians(1.0));
    }
    candidates
}

// The candidates of three sources: the histogram's peaks, the seeds' surroundings, a coarse grid.
pub fn histogram_candidates(
    grad_angles: &[f32],
    grad_weights: &[f32],
    base0: f32,
    base1: f32,
) -> CandidateSet
    requires { length grad_weights.now ≡ length grad_angles.now }
    ensures { (result.n ≤ C.max_paired)
        × (result ≡ C.gradient_candidates (length grad_angles.now) grad_angles.now grad_weights.now base0 base1) }
{
    let hist = histogram(grad_angles, grad_weights);
    let smooth = smooth_bins(&hist);
    let picked = histogram_peaks(&smooth);
    let first = around(picked, base0);
    let second = around(first, base1);
    coarse(second)
}

// From infinity on, as in the Rust: no Option, since a set of none does not come here.
// The nearest so far, and how far it is.
#[derive(Drop)]
struct Nearby {
    best_i: usize,
    best_d: f32,
}

fn nearer(best: Nearby, c: usize, d: f32) -> Nearby
    ensures { result ≡ C.nearer_of c d best }
{
    if d < best.best_d {
        return Nearby {
            best_i: c,
            best_d: d,
        };
    }
    best
}

// By place: the answer is one, and `enumerate` over a part of the array would be no plainer.
fn nearest(candidates: CandidateSet, target_w: f32) -> Nearby
    requires { candidates.n ≤ C.max_candidates }
    ensures { (result.best_i ≤ candidates.n) × (result ≡ C.nearest candidates.angles target_w candidates.n) }
{
    let n = candidates.n;
    let mut best = Nearby {
        best_i: 0,
        best_d: 1.0 / 0.0,
    };
    for c in 0..n {
        let d = geometry::line_delta(candidates.angles[c], target_w);
        best = nearer(best, c, d);
    }
    best
}

pub fn closest_candidate(candidates: CandidateSet, target: f32) -> Option<usize>
    requires { candidates.n ≤ C.max_candidates }
    ensures { result ≡ C.closest_candidate candidates target }
{
    if candidates.n == 0 {
        return None;
    }
    let best = nearest(candidates, geometry::wrap_pi(target));
    Some(best.best_i)
}

fn ordered(i: usize, j: usize) -> Forced
    ensures { result ≡ C.ordered i j }
{
    if i == j {
        return None;
    }
    if i < j {
        return Some((i, j));
    }
    Some((j, i))
}

// The pair closest to the seeds.
pub fn forced_seed_pair(candidates: CandidateSet, base0: f32, base1: f32) -> Forced
    requires { candidates.n ≤ C.max_candidates }
    ensures { result ≡ C.forced_seed_pair candidates base0 base1 }
{
    if candidates.n < 2 {
        return None;
    }
    let i = closest_candidate(candidates, base0)?;
    let j = closest_candidate(candidates, base1)?;
    ordered(i, j)
}

fn first_tops(edge_align: &[f32]) -> Tops
    requires { 2 ≤ length edge_align.now }
    ensures { (result.top0 < 2) × (result.top1 < 2) × (result ≡ C.first_tops edge_align.now) }
{
    if edge_align[1] > edge_align[0] {
        return Tops { top0: 1, top1: 0 };
    }
    Tops { top0: 0, top1: 1 }
}

fn raised_tops(edge_align: &[f32], c: usize, t: Tops) -> Tops
    requires { (c < length edge_align.now) × (t.top0 < c) × (t.top1 < c) }
    ensures { (result.top0 ≤ c) × (result.top1 ≤ c) × (result ≡ C.raised_tops edge_align.now c t) }
{
    let top0 = t.top0;
    let top1 = t.top1;
    if edge_align[c] > edge_align[top0] {
        return Tops {
            top0: c,
            top1: top0,
        };
    }
    if edge_align[c] > edge_align[top1] {
        return Tops { top0, top1: c };
    }
    t
}

// The pair of the two greatest edge sums. By place: sums are compared by their places, from the third on.
pub fn forced_histogram_pair(candidates: CandidateSet, edge_align: &[f32]) -> Forced
    requires { candidates.n ≤ length edge_align.now }
    ensures { result ≡ C.forced_histogram_pair candidates edge_align.now }
{
    let n = candidates.n;
    if n < 2 {
        return None;
    }
    let mut t = first_tops(edge_align);
    for c in 2..n {
        t = raised_tops(edge_align, c, t);
    }
    ordered(t.top0, t.top1)
}

pub fn matches_pair(forced: Forced, i: usize, j: usize) -> bool
    ensures { result ≡ C.matches_pair forced i j }
{
    forced == Some((i, j))
}

pub fn combine_edge_pair(s_a: f32, s_b: f32, total: f32) -> f32
    ensures { result ≡ C.combine_edge_pair s_a s_b total }
{
    if total <= 1e-9 {
        return 0.0;
    }
    let a = s_a / total;
    let b = s_b / total;
    let balance = 2.0 * floats::min(a, b) / floats::max(a + b, 1e-9);
    (a + b) * balance
}

fn no_pairs() -> Pool
    ensures { result ≡ C.no_pairs }
{
    let p = PairScore::default();
    let pairs = [p; MAX_PAIRS];
    Pool { n: 0, pairs }
}

fn is_forced(force_seed: Forced, force_hist: Forced, i: usize, j: usize) -> bool
    ensures { result ≡ C.is_forced force_seed force_hist i j }
{
    matches_pair(force_seed, i, j) || matches_pair(force_hist, i, j)
}

fn pair_score(
    edge_align: &[f32],
    grad_total: f32,
    force_seed: Forced,
    force_hist: Forced,
    i: usize,
    j: usize,
) -> PairScore
    requires { (i < length edge_align.now) × (j < length edge_align.now) × (i < 65536) × (j < 65536) }
    ensures { result ≡ C.pair_score edge_align.now grad_total force_seed force_hist i j }
{
    let edge_score = combine_edge_pair(edge_align[i], edge_align[j], grad_total);
    let forced = is_forced(force_seed, force_hist, i, j);
    PairScore {
        i: i as u16,
        j: j as u16,
        edge_score,
        forced,
    }
}

// All allowed pairs of the candidates: at most MAX_PAIRS of MAX_PAIRED, so each has its place.
pub fn build_pair_pool(
    candidates: CandidateSet,
    edge_align: &[f32],
    grad_total: f32,
    force_seed: Forced,
    force_hist: Forced,
) -> Pool
    requires { (candidates.n ≤ C.max_paired) × (candidates.n ≤ length edge_align.now) }
    ensures { (result.n ≤ C.max_pairs)
        × (result ≡ C.build_pair_pool candidates edge_align.now grad_total force_seed force_hist) }
{
    let n = candidates.n;
    let mut pool = no_pairs();
    // Two places and a skip by label: the form that this project names for pair loops.
    for i in 0..n {
        'pairs: for j in i + 1..n {
            if !geometry::valid_pair(candidates.angles[i], candidates.angles[j]) {
                continue 'pairs;
            }
            let p = pair_score(edge_align, grad_total, force_seed, force_hist, i, j);
            let at = pool.n;
            pool.pairs[at] = p;
            pool.n = at + 1;
        }
    }
    pool
}

// The whole ring fit: ring_fit/robust.rs, the suspicion gate and the grid search behind it. The grid's rows are the crate
// robust_grid, and the walk over its blocks is seed_models'.
#![tactic(auto)]

ghost use Rattle.std.specs.Prelude.{◌≡◌, true, List, [], ◌≤◌, ◌<◌, length, take};
ghost use Rattle.solver_record.specs.Record.{without_mean};
ghost use Rattle.solver.specs.Record.{record_with_seed};
ghost use Rattle.solver.specs.Solver.{sines, cosines};
ghost use Rattle.solver.specs.Buffers.{Prepared, max_samples};
ghost use Rattle.robust_grid.specs.Grid.{best_seed};
ghost use Rattle.seed_models.specs.Models.{Table};
ghost use Rattle.robust.specs.Robust as R;
ghost use Rattle.robust.specs.Record.{record_ring};
ghost use Rattle.robust_choice.specs.Parts.{second_of};
ghost use Rattle.robust.specs.Parts as P;
ghost use Rattle.seed_models.specs.Words as W;

use robust_choice::RingFit;
use seed::{Harmonic, SeedCandidate};
use seed_models::{SliceGrid, Stored};
use solver::{MAX_SAMPLES, Ring, Sample};
use solver_record::{Params, Started, TwoAxisFit};

const AMP_FLOOR: f32 = 1.0;

const ROBUST_REL_RMS_TRIGGER: f32 = 0.12;

// 65 and 115 degrees, by `to_radians`.
const ROBUST_SEP_TRIGGER_MIN_RAD: f32 = 1.13446403;

const ROBUST_SEP_TRIGGER_MAX_RAD: f32 = 2.00712872;

fn total(samples: &[f32]) -> f32
    ensures { result ≡ R.total (length samples.now) samples.now }
{
    samples.iter().copied().sum()
}

fn deviations(samples: &[f32], mean: f32) -> f32
    ensures { result ≡ R.deviations (length samples.now) samples.now mean }
{
    samples
        .iter()
        .copied()
        .map(|s| (s - mean) * (s - mean))
        .sum()
}

pub fn relative_rms(f: TwoAxisFit) -> f32
    ensures { result ≡ R.relative_rms (without_mean f) }
{
    if floats::is_finite(f.rms) {
        return floats::max(f.rms, 0.0) / floats::max(f.amp, AMP_FLOOR);
    }
    1.0 / 0.0
}

fn is_outside(sep: f32) -> bool
    ensures { result ≡ R.outside sep }
{
    !(sep >= ROBUST_SEP_TRIGGER_MIN_RAD && sep <= ROBUST_SEP_TRIGGER_MAX_RAD)
}

// The two triggers of the grid.
fn is_triggered(f: TwoAxisFit) -> bool
    ensures { result ≡ R.triggered (without_mean f) }
{
    if is_outside(geometry::line_separation(f.theta1, f.theta2)) {
        return true;
    }
    relative_rms(f) >= ROBUST_REL_RMS_TRIGGER
}

pub fn fit_is_suspicious(f: TwoAxisFit) -> bool
    ensures { result ≡ R.fit_is_suspicious (without_mean f) }
{
    if !floats::is_finite(f.amp) || !floats::is_finite(f.rms) || f.amp < AMP_FLOOR {
        return false;
    }
    is_triggered(f)
}

// By place: after a `zip` over an `iter_mut` a proof knows no element, and the contract speaks of each.
fn center(samples: &[f32], mean: f32, centered: &mut [f32])
    requires { length centered.old ≡ length samples.now }
    ensures { centered.new ≡ R.centered_of (length samples.now) samples.now mean }
{
    let n = samples.len();
    for i in 0..n {
        centered[i] = samples[i] - mean;
    }
}

fn squares(centered: &[f32]) -> f32
    ensures { result ≡ R.squares (length centered.now) centered.now }
{
    let mut s = 0.0f32;
    for c in centered {
        s += *c * *c;
    }
    s
}

// A ring with the sines and cosines of its angles at hand.
#[derive(Clone, Copy)]
struct Ready<'a> {
    ring: Ring<'a>,
    ring_phi: &'a [f32],
    ghost phi: { length ring_phi.now ≡ length ring.samples.now },
    ghost sines: { ring.sphi.now ≡ sines (length ring_phi.now) ring_phi.now },
    ghost cosines: { ring.cphi.now ≡ cosines (length ring_phi.now) ring_phi.now },
}

// A start from a seed: solver.rs, fit_with_seed behind its sin_cos. Its working buffer is not on a caller's stack, where the
// grid's rows come next. N is how many samples that stack has room for, here and below.
#[inline(never)]
fn started<const N: usize>(ready: &Ready, seed: Params, centered_var: f32) -> Started
    requires { (length ready.now.ring.samples.now ≤ N) × (N ≤ max_samples) }
    ensures { result ≡ record_with_seed (length ready.now.ring.samples.now) ready.now.ring.samples.now
        ready.now.ring_phi.now seed centered_var }
{
    if solver_record::is_degenerate(seed.amp, centered_var) {
        return solver_record::refused(centered_var, seed.mu);
    }
    let n = ready.ring.samples.len();
    let mut js = [Sample::NONE; N];
    solver::fit_prepared(&ready.ring, seed, &mut js[..n])
}

// The one seed's fit, where there is a seed.
fn refined<const N: usize>(
    ready: &Ready,
    centered_var: f32,
    top: Option<SeedCandidate>,
) -> Option<Started>
    requires { (length ready.now.ring.samples.now ≤ N) × (N ≤ max_samples) }
    ensures { result ≡ second_of (R.refine_seed_candidates (length ready.now.ring.samples.now)
        ready.now.ring.samples.now ready.now.ring_phi.now centered_var top) }
{
    let s = top?;
    let seed = Params {
        mu: s.mu,
        amp: s.amp,
        theta1: s.theta1,
        theta2: s.theta2,
    };
    Some(started::<N>(ready, seed, centered_var))
}

// The centred samples and the sum of their squares, where the grid is worth its search.
fn centered_sum(samples: &[f32], mean: f32, centered_var: f32, centered: &mut [f32]) -> Option<f32>
    requires { length centered.old ≡ length samples.now }
    ensures { P.CenteredIn (length samples.now) samples.now mean centered_var centered.new result }
{
    if centered_var < 1e-6 {
        return None;
    }
    center(samples, mean, centered);
    let s = squares(centered);
    if seed::is_flat(s) {
        return None;
    }
    Some(s)
}

// The best seed of the grid. Its rows are on this call's stack: not put into a caller, they are cleared only where the grid is
// searched, and gone when the start is made.
#[inline(never)]
fn grid_seed<const N: usize>(
    ring: &Ring,
    centered: &[f32; N],
    centered_ss: f32,
    mean: f32,
) -> Option<SeedCandidate>
    requires { (length ring.now.samples.now ≤ N) × (N ≤ max_samples) }
    ensures { result ≡ best_seed (length ring.now.samples.now) ring.now.sphi.now ring.now.cphi.now
        (take (length ring.now.samples.now) centered.now) centered_ss mean }
{
    let mut rows = [[0.0f32; robust_lanes::ROW_PLACES]; N];
    let n = ring.samples.len();
    // Full arrays are taken whole, so that the number of samples is a constant to the compiler: it was a tenth of a fit with
    // two starts (measured on an older kit).
    if n == N {
        robust_grid::fill_grid(ring.sphi, ring.cphi, &mut rows);
        return seed_models::best_seed_of_slice(
            &SliceGrid { rows: &rows },
            centered,
            centered_ss,
            mean,
        );
    }
    let filled = &mut rows[..n];
    robust_grid::fill_grid(ring.sphi, ring.cphi, filled);
    seed_models::best_seed_of_slice(
        &SliceGrid { rows: filled },
        &centered[..n],
        centered_ss,
        mean,
    )
}

// The start behind the grid.
fn grid_fit<const N: usize>(ready: &Ready, mean: f32, centered_var: f32) -> Option<Started>
    requires { (length ready.now.ring.samples.now ≤ N) × (N ≤ max_samples) }
    ensures { result ≡ second_of (R.robust_grid_fit [] (length ready.now.ring.samples.now)
        ready.now.ring.samples.now ready.now.ring_phi.now mean centered_var) }
{
    let ring = &ready.ring;
    let n = ring.samples.len();
    let mut centered = [0.0f32; N];
    let centered_ss = centered_sum(ring.samples, mean, centered_var, &mut centered[..n])?;
    let top = grid_seed(ring, &centered, centered_ss, mean);
    refined::<N>(ready, centered_var, top)
}

// Not one with `grid_fit`: the grid's rows are made on a stack that ends before the start is made.
// The start behind a table's models: robust_grid_fit_cached.
fn cached_fit(table: Stored, ready: &Ready, mean: f32, centered_var: f32) -> Option<Started>
    requires { length ready.now.ring.samples.now ≡ W.ring_samples }
    ensures { result ≡ second_of (R.grid_fit_by (P.cached_seed table.entry.table.now mean) W.ring_samples
        ready.now.ring.samples.now ready.now.ring_phi.now mean centered_var) }
{
    let mut centered = [0.0f32; seed_models::RING_SAMPLES];
    let centered_ss = centered_sum(ready.ring.samples, mean, centered_var, &mut centered)?;
    let top = seed_models::best_seed_of_slice(&table, &centered, centered_ss, mean);
    refined::<{ seed_models::RING_SAMPLES }>(ready, centered_var, top)
}

// The arrays stand here and in robust_grid_fit: a function of both would have to hand out slices of its own stack.
pub fn refine_seed_candidates<'a>(
    samples: &'a [f32],
    ring_phi: &'a [f32],
    centered_var: f32,
    top: Option<SeedCandidate>,
) -> Option<Started>
    requires { (length samples.now ≤ max_samples) × (length ring_phi.now ≡ length samples.now) }
    ensures { result ≡ second_of (R.refine_seed_candidates (length samples.now) samples.now ring_phi.now
        centered_var top) }
{
    let n = ring_phi.len();
    let mut turned = [0.0f32; MAX_SAMPLES];
    let mut sines = [0.0f32; MAX_SAMPLES];
    let mut cosines = [0.0f32; MAX_SAMPLES];
    let sphi = &mut sines[..n];
    let cphi = &mut cosines[..n];
    solver::prepare(ring_phi, &mut turned[..n], sphi, cphi);
    let ring = Ring {
        samples,
        sphi,
        cphi,
    };
    refined::<MAX_SAMPLES>(&Ready { ring, ring_phi }, centered_var, top)
}

pub fn robust_grid_fit<'a>(
    samples: &'a [f32],
    ring_phi: &'a [f32],
    mean: f32,
    centered_var: f32,
) -> Option<Started>
    requires { (length samples.now ≤ max_samples) × (length ring_phi.now ≡ length samples.now) }
    ensures { result ≡ second_of (R.robust_grid_fit [] (length samples.now) samples.now ring_phi.now
        mean centered_var) }
{
    let n = ring_phi.len();
    let mut turned = [0.0f32; MAX_SAMPLES];
    let mut sines = [0.0f32; MAX_SAMPLES];
    let mut cosines = [0.0f32; MAX_SAMPLES];
    let sphi = &mut sines[..n];
    let cphi = &mut cosines[..n];
    solver::prepare(ring_phi, &mut turned[..n], sphi, cphi);
    let ring = Ring {
        samples,
        sphi,
        cphi,
    };
    let ready = Ready { ring, ring_phi };
    // The usual number has arrays of its own size behind this, so that the compiler knows it there too.
    if n == seed_models::RING_SAMPLES {
        return grid_fit::<{ seed_models::RING_SAMPLES }>(&ready, mean, centered_var);
    }
    grid_fit::<MAX_SAMPLES>(&ready, mean, centered_var)
}

// The axes lie PI/4 on either side of the sector's midpoint.
fn first_seed(h: Harmonic, mean: f32) -> Params
    ensures { result ≡ R.first_seed h mean }
{
    Params {
        mu: mean,
        amp: h.mag,
        theta1: h.theta + floats::QUARTER_PI,
        theta2: h.theta + 3.0 * floats::QUARTER_PI,
    }
}

// The first start, with the mean and the variance of the samples.
#[derive(Clone, Copy)]
pub struct First {
    pub primary: Started,
    pub mean: f32,
    pub centered_var: f32,
}

// What solver::fit_with_seed does, and not by a call of it, whose clause says nothing of the sines. A start that is not
// refused leaves the sines and cosines for the grid, and no refused start is suspicious. Its working buffers are not on a
// caller's stack either.
#[inline(never)]
fn start<const N: usize>(
    samples: &[f32],
    ring_phi: &[f32],
    seed: Params,
    centered_var: f32,
    sphi: &mut [f32; N],
    cphi: &mut [f32; N],
) -> Started
    requires { P.SamplesSized N samples.now ring_phi.now }
    ensures value { result ≡ record_with_seed (length samples.now) samples.now ring_phi.now seed centered_var }
    ensures prepared { R.fit_is_suspicious (without_mean result.fit) ≡ true → Prepared ring_phi.now sphi.new cphi.new }
{
    if solver_record::is_degenerate(seed.amp, centered_var) {
        return solver_record::refused(centered_var, seed.mu);
    }
    let mut turned = [0.0f32; N];
    let mut js = [Sample::NONE; N];
    solver::prepare(ring_phi, &mut turned, sphi, cphi);
    let ring = Ring {
        samples,
        sphi,
        cphi,
    };
    solver::fit_prepared(&ring, seed, &mut js)
}

// Two slices, as the entries have them: a Ready, which says more, is there only behind the first start.
fn first_start<const N: usize>(
    samples: &[f32],
    ring_phi: &[f32],
    sphi: &mut [f32; N],
    cphi: &mut [f32; N],
) -> First
    requires { P.SamplesSized N samples.now ring_phi.now }
    ensures value { result ≡ P.first_of (length samples.now) samples.now ring_phi.now }
    ensures prepared { R.fit_is_suspicious (without_mean result.primary.fit) ≡ true →
        Prepared ring_phi.now sphi.new cphi.new }
{
    let count = floats::count_f32(N);
    let mean = total(samples) / count;
    let centered_var = deviations(samples, mean) / count;
    let mut turned = [0.0f32; N];
    let h = seed::second_harmonic(samples, ring_phi, mean, &mut turned, sphi, cphi);
    let seed = first_seed(h, mean);
    let primary = start(samples, ring_phi, seed, centered_var, sphi, cphi);
    First {
        primary,
        mean,
        centered_var,
    }
}

// What a ring's second start may be had from.
trait Models<const N: usize> {
    ghost tables: { Self → List Table };

    // The start behind a suspicious first one.
    fn second(&self, ready: &Ready, mean: f32, centered_var: f32) -> Option<Started>
        requires { length ready.now.ring.samples.now ≡ N }
        ensures { result ≡ second_of (R.robust_grid_fit (tables self.now) (length ready.now.ring.samples.now)
            ready.now.ring.samples.now ready.now.ring_phi.now mean centered_var) };
}

// No table: the grid is searched.
#[derive(Drop)]
struct Untabled;

impl<const N: usize> Models<N> for Untabled {
    ghost tables = { λ s. [] };

    fn second(&self, ready: &Ready, mean: f32, centered_var: f32) -> Option<Started> {
        grid_fit::<N>(ready, mean, centered_var)
    }
}

// All tables that the words hold: a ring whose angles are near a table's has its second seed from the first.
#[derive(Clone, Copy)]
struct Words<'a> {
    words: &'a [f32],
    ghost sized: { length words.now ≡ W.state_size },
}

impl<'a> Words<'a> {
    fn table(self, t: usize) -> Stored<'a>
        requires { t < W.most_tables }
        ensures { result.table.now ≡ W.table_part self.entry.words.now t }
    {
        let words = self.words;
        let b = 1 + t * seed_models::TABLE_SIZE;
        Stored {
            table: &words[b..b + seed_models::TABLE_SIZE],
        }
    }
}

impl<'a> Models<{ seed_models::RING_SAMPLES }> for Words<'a> {
    ghost tables = { λ s. W.tables_in s.words.now };

    fn second(&self, ready: &Ready, mean: f32, centered_var: f32) -> Option<Started> {
        let words = *self;
        let Some(t) = seed_models::first_table(words.words, ready.ring_phi) else {
            return grid_fit::<{ seed_models::RING_SAMPLES }>(ready, mean, centered_var);
        };
        cached_fit(words.table(t), ready, mean, centered_var)
    }
}

// The fit of N samples. Each step has its working buffers on its own stack.
fn fit_by<'a, const N: usize, M: Models<N>>(
    models: &M,
    samples: &'a [f32],
    ring_phi: &'a [f32],
) -> RingFit
    requires { P.SamplesSized N samples.now ring_phi.now }
    ensures { result ≡ record_ring (M.tables models.now) (length samples.now) samples.now ring_phi.now }
{
    let mut sphi = [0.0f32; N];
    let mut cphi = [0.0f32; N];
    let f = first_start(samples, ring_phi, &mut sphi, &mut cphi);
    if !fit_is_suspicious(f.primary.fit) {
        return robust_choice::alone(f.primary);
    }
    let ready = Ready {
        ring: Ring {
            samples,
            sphi: &sphi,
            cphi: &cphi,
        },
        ring_phi,
    };
    let second = models.second(&ready, f.mean, f.centered_var);
    robust_choice::chosen(f.primary, second)
}

// The Rust's ring has 16 samples; another number is ours, without a counterpart there.
pub fn fit_ring<const N: usize>(samples: &[f32], ring_phi: &[f32]) -> RingFit
    requires { P.SamplesSized N samples.now ring_phi.now }
    ensures { result ≡ record_ring [] (length samples.now) samples.now ring_phi.now }
{
    fit_by::<N, Untabled>(&Untabled, samples, ring_phi)
}

pub fn fit_ring_with(words: &[f32], samples: &[f32], ring_phi: &[f32]) -> RingFit
    requires { (length words.now ≡ W.state_size) × (length samples.now ≡ 16) × (length ring_phi.now ≡ 16) }
    ensures { result ≡ record_ring (W.tables_in words.now) (length samples.now) samples.now
        ring_phi.now }
{
    fit_by::<{ seed_models::RING_SAMPLES }, Words>(&Words { words }, samples, ring_phi)
}

// The score of a pair of axes, the order of fits and the errors of a fit: disk_sector/score.rs.
#![tactic(auto)]

ghost use Rattle.std.specs.Prelude.{◌≡◌, ◌≤◌, Float, length};
ghost use Rattle.data.specs.Data.{OfPixels, OfValues, OfGradients, max_tanh_pixels};
ghost use Rattle.candidates.specs.Candidates.{max_candidates};
ghost use Rattle.score.specs.Score as S;

use candidates::CandidateSet;
use elementary::SinCos;
use score_edges::Ranking;
use solver_errors::Estimate;

pub const WIDTHS_PX: [f32; 4] = [0.35, 0.70, 1.40, 2.80];

// What a pair of axes at one width is worth.
#[derive(Clone, Copy)]
pub struct Fit {
    pub theta1: f32,
    pub theta2: f32,
    pub width: f32,
    pub amp: f32,
    pub rms: f32,
    pub rel_rms: f32,
    pub corr: f32,
    pub edge_score: f32,
    pub objective: f32,
}

// A pair of axes that is to be scored at one width, and how well the gradients agree with it.
#[derive(Clone, Copy)]
pub struct Trial {
    pub theta0: f32,
    pub theta1: f32,
    pub width: f32,
    pub edge_score: f32,
}

// The sums of a pair: of q, of its square, and of its product with the centred values.
#[derive(Drop, Default)]
pub struct Sums {
    pub q: f32,
    pub q2: f32,
    pub dot: f32,
}

// A pixel's model, its slopes by the two axes, and its error.
#[derive(Drop)]
pub struct Slopes {
    pub q: f32,
    pub j1: f32,
    pub j2: f32,
    pub e: f32,
}

// The sums over the pixels that the errors are made of.
#[derive(Clone, Copy, Default)]
pub struct Moments {
    pub sq: f64,
    pub sqq: f64,
    pub sj1: f64,
    pub sj2: f64,
    pub sqj1: f64,
    pub sqj2: f64,
    pub sj1j1: f64,
    pub sj1j2: f64,
    pub sj2j2: f64,
    pub see: f64,
}

// The model's factor of each pixel for an axis at theta. By place: a `zip` over `row.iter_mut()` tells a proof of no element.
pub fn axis_row(xs: &[f32], ys: &[f32], theta: f32, width: f32, row: &mut [f32])
    requires { (length ys.now ≡ length xs.now) × (length row.old ≡ length xs.now) }
    ensures { row.new ≡ S.axis_row (length xs.now) xs.now ys.now theta width }
{
    let t = elementary::sin_cos(theta);
    for p in 0..xs.len() {
        row[p] = elementary::tanh((-t.s * xs[p] + t.c * ys[p]) / width);
    }
}

// By place: three rows are read in step, and a `zip` in a `zip` would be no plainer.
// The disk's twin of seed::pair_sums: each crate stands for its Rust file, and neither uses the other.
fn cached_sums(vals_centered: &[f32], h0: &[f32], h1: &[f32]) -> Sums
    requires { (length h0.now ≡ length vals_centered.now) × (length h1.now ≡ length vals_centered.now) }
    ensures { result
        ≡ S.cached_sums (length vals_centered.now) vals_centered.now h0.now h1.now }
{
    let mut s = Sums::default();
    for p in 0..vals_centered.len() {
        let q = h0[p] * h1[p];
        s.q += q;
        s.q2 += q * q;
        s.dot += q * vals_centered[p];
    }
    s
}

// At the least-squares optimum the residual is the energy less dot * dot / denom; rounding can push
// it below 0.
fn fit_of(val_energy: f32, n_inv: f32, dot: f32, denom: f32, t: Trial) -> Fit
    ensures { result ≡ S.fit_of val_energy n_inv dot denom t.theta0 t.theta1 t.width t.edge_score }
{
    let amp = dot / denom;
    let ssr = floats::max(val_energy - dot * dot / denom, 0.0);
    let rms = roots::sqrt(ssr * n_inv);
    let corr = floats::abs(dot) / roots::sqrt(denom * val_energy);
    let rel_rms = rms / floats::max(floats::abs(amp), 1.0);
    let a = solver_axes::canonicalize_tracking_swap(t.theta0, t.theta1, amp);
    Fit {
        theta1: a.theta1,
        theta2: a.theta2,
        width: t.width,
        amp: a.amp,
        rms,
        rel_rms,
        corr,
        edge_score: t.edge_score,
        objective: rel_rms - 1.25 * t.edge_score,
    }
}

fn scored_sums(val_energy: f32, n_inv: f32, s: Sums, t: Trial) -> Option<Fit>
    ensures { result ≡ S.scored_sums val_energy n_inv s t.theta0 t.theta1 t.width t.edge_score }
{
    let denom = s.q2 - s.q * s.q * n_inv;
    if denom <= 1e-9 {
        return None;
    }
    Some(fit_of(val_energy, n_inv, s.dot, denom, t))
}

// The score of two axes from their rows of tanh, or none.
pub fn score_pair_cached(
    val_energy: f32,
    vals_centered: &[f32],
    t: Trial,
    h0: &[f32],
    h1: &[f32],
) -> Option<Fit>
    requires { (length h0.now ≡ length vals_centered.now) × (length h1.now ≡ length vals_centered.now)
        × (length vals_centered.now ≤ max_tanh_pixels) }
    ensures { OfValues val_energy vals_centered
        (λ D. result ≡ S.score_pair_cached D t.theta0 t.theta1 t.width t.edge_score h0.now h1.now) }
{
    if !geometry::valid_pair(t.theta0, t.theta1) {
        return None;
    }
    if val_energy <= 1e-9 {
        return None;
    }
    let s = cached_sums(vals_centered, h0, h1);
    let n_inv = 1.0 / floats::count_f32(vals_centered.len());
    scored_sums(val_energy, n_inv, s, t)
}

// Step 1 of best_disk_fit: the candidates' edge sums into `out`, and the weights' total; `terms` is
// lent as scratch.
pub fn precompute_edge_alignments(
    grad_angles: &[f32],
    grad_weights: &[f32],
    candidates: CandidateSet,
    terms: &mut [f32],
    out: &mut [f32],
) -> f32
    requires { (length grad_weights.now ≡ length grad_angles.now) × (length terms.old ≡ length grad_angles.now)
        × (candidates.n ≤ length out.old) × (length out.old ≤ max_candidates) }
    ensures { OfGradients grad_angles grad_weights (λ D. ◌≡◌ {A = S.Alignments} (record { total = result; out = out.new })
        (S.precompute_edge_alignments D candidates out.old)) }
{
    let total = score_edges::edge_weight_total(grad_weights);
    if total <= 1e-9 {
        return 0.0;
    }
    // By place: a `zip` over `out.iter_mut()` tells a proof of no element, and what lies behind n is promised to stay.
    for c in 0..candidates.n {
        out[c] = score_edges::edge_sum::<Ranking>(
            grad_angles,
            grad_weights,
            candidates.angles[c],
            terms,
        );
    }
    total
}

// Whether a fit goes before another by the lower of two keys; none where the keys lie within 1e-9 of each other.
fn lower(a: f32, b: f32) -> Option<bool>
    ensures { result ≡ S.lower_told a b }
{
    if a < b - 1e-9 {
        return Some(true);
    }
    if floats::abs(a - b) > 1e-9 {
        return Some(false);
    }
    None
}

// The same by the higher: no `lower(b, a)`, since a - 1e-9 and b + 1e-9 round apart.
fn higher(a: f32, b: f32) -> Option<bool>
    ensures { result ≡ S.higher_told a b }
{
    if a > b + 1e-9 {
        return Some(true);
    }
    if floats::abs(a - b) > 1e-9 {
        return Some(false);
    }
    None
}

// Lower objective, lower rel_rms, higher edge_score, narrower width, smaller theta1, smaller theta2: the first
// key that tells by more than 1e-9 decides. With these margins it is no order.
pub fn fit_is_better(a: Fit, b: Fit) -> bool
    ensures { result ≡ S.fit_is_better a b }
{
    lower(a.objective, b.objective)
        .or(lower(a.rel_rms, b.rel_rms))
        .or(higher(a.edge_score, b.edge_score))
        .or(lower(a.width, b.width))
        .or(lower(a.theta1, b.theta1))
        .unwrap_or(a.theta2 < b.theta2)
}

fn slopes_at(amp: f32, inv_w: f32, t1: SinCos, t2: SinCos, x: f32, y: f32, v: f32) -> Slopes
    ensures { result ≡ S.slopes_at amp inv_w t1 t2 x y v }
{
    let h1 = elementary::tanh((-t1.s * x + t1.c * y) * inv_w);
    let h2 = elementary::tanh((-t2.s * x + t2.c * y) * inv_w);
    let q = h1 * h2;
    Slopes {
        q,
        j1: amp * (1.0 - h1 * h1) * inv_w * (-t1.c * x - t1.s * y) * h2,
        j2: amp * h1 * (1.0 - h2 * h2) * inv_w * (-t2.c * x - t2.s * y),
        e: v - amp * q,
    }
}

fn gathered(t: Slopes, m: Moments) -> Moments
    ensures { result ≡ S.gathered t m }
{
    let q = floats::widen(t.q);
    let j1 = floats::widen(t.j1);
    let j2 = floats::widen(t.j2);
    let e = floats::widen(t.e);
    Moments {
        sq: m.sq + q,
        sqq: m.sqq + q * q,
        sj1: m.sj1 + j1,
        sj2: m.sj2 + j2,
        sqj1: m.sqj1 + q * j1,
        sqj2: m.sqj2 + q * j2,
        sj1j1: m.sj1j1 + j1 * j1,
        sj1j2: m.sj1j2 + j1 * j2,
        sj2j2: m.sj2j2 + j2 * j2,
        see: m.see + e * e,
    }
}

// By place: three rows are read in step, and a `zip` in a `zip` would be no plainer.
fn moments_of(xs: &[f32], ys: &[f32], vals_centered: &[f32], fit: Fit) -> Moments
    requires { (length ys.now ≡ length xs.now) × (length vals_centered.now ≡ length xs.now) }
    ensures { result ≡ S.moments_of (length xs.now) xs.now ys.now vals_centered.now fit }
{
    let inv_w = 1.0 / fit.width;
    let t1 = elementary::sin_cos(fit.theta1);
    let t2 = elementary::sin_cos(fit.theta2);
    let mut m = Moments::default();
    for p in 0..xs.len() {
        let t = slopes_at(fit.amp, inv_w, t1, t2, xs[p], ys[p], vals_centered[p]);
        m = gathered(t, m);
    }
    m
}

fn residual(n: usize, amp: f32, m: Moments) -> f64
    requires { n ≤ max_tanh_pixels }
    ensures { result ≡ S.residual n amp m }
{
    let count = floats::count_f64(n);
    let a_qbar = floats::widen(amp) * m.sq / count;
    floats::max_f64(m.see - count * a_qbar * a_qbar, 0.0)
}

fn normal(n: usize, m: Moments) -> [[f32; 4]; 4]
    requires { n ≤ max_tanh_pixels }
    ensures { result ≡ S.normal n m }
{
    let c = narrowing::narrow(floats::count_f64(n));
    let sq = narrowing::narrow(m.sq);
    let sqq = narrowing::narrow(m.sqq);
    let sj1 = narrowing::narrow(m.sj1);
    let sj2 = narrowing::narrow(m.sj2);
    let sqj1 = narrowing::narrow(m.sqj1);
    let sqj2 = narrowing::narrow(m.sqj2);
    let sj1j1 = narrowing::narrow(m.sj1j1);
    let sj1j2 = narrowing::narrow(m.sj1j2);
    let sj2j2 = narrowing::narrow(m.sj2j2);
    [
        [c, sq, sj1, sj2],
        [sq, sqq, sqj1, sqj2],
        [sj1, sqj1, sj1j1, sj1j2],
        [sj2, sqj2, sj1j2, sj2j2],
    ]
}

// The standard errors of a fit's two axes and their standing, from one pass at its own angles and width.
pub fn fit_std_errors(xs: &[f32], ys: &[f32], vals_centered: &[f32], fit: Fit) -> Estimate
    requires { (length ys.now ≡ length xs.now) × (length vals_centered.now ≡ length xs.now)
        × (length xs.now ≤ max_tanh_pixels) }
    ensures { (energy : Float) →
        OfPixels energy xs ys vals_centered (λ D. result ≡ S.fit_estimate D fit) }
{
    let n = xs.len();
    let m = moments_of(xs, ys, vals_centered, fit);
    let jtj = normal(n, m);
    let ssr = narrowing::narrow(residual(n, fit.amp, m));
    solver_errors::axis_std_errors(&jtj, ssr, n)
}

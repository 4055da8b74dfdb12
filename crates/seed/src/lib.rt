// Seeds of the ring fit: ring_fit/seed.rs, second_harmonic, score_seed_pair and
// insert_seed_candidate.
#![tactic(auto)]

ghost use Rattle.std.specs.Prelude.{◌≡◌, ◌≤◌, length};
ghost use Rattle.solver.specs.Buffers.{max_samples};
ghost use Rattle.seed.specs.Seed as S;
ghost use Rattle.seed.specs.Buffers as B;

// The sums of the second harmonic.
#[derive(Drop)]
pub struct Waves {
    pub c2: f32,
    pub s2: f32,
}

// A sector's midpoint direction, and an estimate of the amplitude.
#[derive(Drop)]
pub struct Harmonic {
    pub theta: f32,
    pub mag: f32,
}

// The sums of a pair: of q, of its square, and of its product with the centred samples.
#[derive(Drop)]
pub struct Sums {
    pub q_sum: f32,
    pub q2_sum: f32,
    pub num: f32,
}

#[derive(Clone, Copy)]
pub struct SeedCandidate {
    pub theta1: f32,
    pub theta2: f32,
    pub mu: f32,
    pub amp: f32,
    pub rms: f32,
}

fn double_near(ring_phi: &[f32], turned: &mut [f32])
    requires { length turned.old ≡ length ring_phi.now }
    ensures { turned.new ≡ B.doubled_near (length ring_phi.now) ring_phi.now }
{
    let n = ring_phi.len();
    // By place: after a `zip` over an `iter_mut` a proof knows no element, and the contract speaks of each.
    for i in 0..n {
        turned[i] = 2.0 * ring_phi[i];
    }
}

// Twice each angle, brought to at most 64 in size.
fn double_all(ring_phi: &[f32], turned: &mut [f32])
    requires { length turned.old ≡ length ring_phi.now }
    ensures { turned.new ≡ B.doubled (length ring_phi.now) ring_phi.now }
{
    double_near(ring_phi, turned);
    solver::turn_all(turned);
}

// The ordered sums, once the sines and cosines of the doubled angles are there.
fn wave_sums(samples: &[f32], mean: f32, sphi: &[f32], cphi: &[f32]) -> Waves
    requires { (length sphi.now ≡ length samples.now) × (length cphi.now ≡ length samples.now) }
    ensures { result ≡ B.waves_from (length samples.now) samples.now mean sphi.now cphi.now }
{
    let n = samples.len();
    let mut w = Waves { c2: 0.0, s2: 0.0 };
    // By place: three slices are read in step, and a `zip` in a `zip` would be no plainer.
    for i in 0..n {
        let v = samples[i] - mean;
        w.c2 += v * cphi[i];
        w.s2 += v * sphi[i];
    }
    w
}

#[tactic(auto, unfolding(crate::specs::Seed::settled))]
fn settled(theta: f32) -> f32
    ensures { result ≡ S.settled theta }
{
    if floats::is_finite(theta) {
        return theta;
    }
    0.0
}

// `turned`, `sphi` and `cphi` are lent: as long as the samples, and of no meaning afterwards.
pub fn second_harmonic(
    samples: &[f32],
    ring_phi: &[f32],
    mean: f32,
    turned: &mut [f32],
    sphi: &mut [f32],
    cphi: &mut [f32],
) -> Harmonic
    requires { B.HarmonicRoom samples.now ring_phi.now turned.old sphi.old cphi.old }
    ensures { result ≡ S.second_harmonic (length samples.now) samples.now ring_phi.now mean }
{
    double_all(ring_phi, turned);
    solver::sin_cos_all(turned, sphi, cphi);
    let w = wave_sums(samples, mean, sphi, cphi);
    let n = samples.len();
    let theta = settled(0.5 * elementary::atan2(w.s2, w.c2));
    let root = roots::sqrt(w.c2 * w.c2 + w.s2 * w.s2);
    Harmonic {
        theta,
        mag: root / floats::count_f32(n / 2),
    }
}

fn pair_sums(centered: &[f32], h1: &[f32], h2: &[f32]) -> Sums
    requires { (length h1.now ≡ length centered.now) × (length h2.now ≡ length centered.now) }
    ensures { result ≡ S.pair_sums (length centered.now) centered.now h1.now h2.now }
{
    let n = centered.len();
    let mut s = Sums {
        q_sum: 0.0,
        q2_sum: 0.0,
        num: 0.0,
    };
    // By place: three slices are read in step, and a `zip` in a `zip` would be no plainer.
    for i in 0..n {
        let q = h1[i] * h2[i];
        s.q_sum += q;
        s.q2_sum += q * q;
        s.num += centered[i] * q;
    }
    s
}

#[tactic(auto, unfolding(crate::specs::Seed::kept))]
fn kept(s: SeedCandidate) -> Option<SeedCandidate>
    ensures { result ≡ S.kept s }
{
    if floats::is_finite(s.rms) && floats::is_finite(s.amp) && floats::is_finite(s.mu) {
        return Some(s);
    }
    None
}

#[tactic(auto, unfolding(crate::specs::Seed::flat))]
pub fn is_flat(denom: f32) -> bool
    ensures { result ≡ S.flat denom }
{
    if floats::is_finite(denom) {
        return denom <= 1e-6;
    }
    true
}

// From num on: `n` is the number of samples. A struct of some of the eight would be no plainer: each caller has
// them one by one.
#[tactic(auto, unfolding(crate::specs::Seed::seed_from))]
pub fn seed_from(
    n: f32,
    centered_ss: f32,
    mean: f32,
    num: f32,
    q_mean: f32,
    denom: f32,
    theta1: f32,
    theta2: f32,
) -> Option<SeedCandidate>
    ensures { result ≡ S.seed_from n centered_ss mean num q_mean denom theta1 theta2 }
{
    let amp = num / denom;
    let ssr = floats::max(centered_ss - num * num / denom, 0.0);
    let rms = roots::sqrt(ssr / n);
    kept(SeedCandidate {
        theta1,
        theta2,
        mu: mean - amp * q_mean,
        amp,
        rms,
    })
}

// The same, unless the denominator is flat.
#[tactic(auto, unfolding(crate::specs::Seed::scored_from))]
pub fn scored_from(
    n: f32,
    centered_ss: f32,
    mean: f32,
    num: f32,
    q_mean: f32,
    denom: f32,
    theta1: f32,
    theta2: f32,
) -> Option<SeedCandidate>
    ensures { result ≡ S.scored_from n centered_ss mean num q_mean denom theta1 theta2 }
{
    if is_flat(denom) {
        return None;
    }
    seed_from(n, centered_ss, mean, num, q_mean, denom, theta1, theta2)
}

// The score of a pair from its sums.
#[tactic(auto, unfolding(crate::specs::Seed::scored))]
fn score_sums(
    n: f32,
    centered_ss: f32,
    mean: f32,
    s: Sums,
    theta1: f32,
    theta2: f32,
) -> Option<SeedCandidate>
    ensures { result ≡ S.scored n centered_ss mean s theta1 theta2 }
{
    let q_mean = s.q_sum / n;
    let denom = s.q2_sum - s.q_sum * q_mean;
    scored_from(n, centered_ss, mean, s.num, q_mean, denom, theta1, theta2)
}

#[tactic(auto, unfolding(crate::specs::Seed::score_seed_pair))]
pub fn score_seed_pair(
    centered: &[f32],
    centered_ss: f32,
    mean: f32,
    h1: &[f32],
    h2: &[f32],
    theta1: f32,
    theta2: f32,
) -> Option<SeedCandidate>
    requires { (length h1.now ≡ length centered.now) × (length h2.now ≡ length centered.now) × (length centered.now ≤ max_samples) }
    ensures { result ≡ S.score_seed_pair (length centered.now) centered.now centered_ss mean
        h1.now h2.now theta1 theta2 }
{
    let s = pair_sums(centered, h1, h2);
    let n = centered.len();
    score_sums(floats::count_f32(n), centered_ss, mean, s, theta1, theta2)
}

// One place: the candidate takes it where it is empty, or where its residual is lower.
#[tactic(auto, unfolding(crate::specs::Seed::insert_seed_candidate))]
pub fn insert_seed_candidate(top: Option<SeedCandidate>, c: SeedCandidate) -> Option<SeedCandidate>
    ensures { result ≡ S.insert_seed_candidate top c }
{
    match top {
        None => Some(c),
        Some(s) if c.rms < s.rms => Some(c),
        Some(_) => top,
    }
}

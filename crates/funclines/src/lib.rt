// The test instrument's half below the disk: libfunclines.a, one export for each function that a
// function line 10 to 66 calls. The program around it, tests/funclines.c, reads the lines and is not
// proved. No part of the product: an export may ask for something by `requires`, which that program
// tests before it calls, and promises nothing but that it is safe and ends.
#![tactic(auto)]

ghost use Rattle.std.specs.Prelude.{◌^◌, ◌<◌};

use robust_choice::RingFit;
use seed::SeedCandidate;
use solver::Sample;
use solver_record::{Params, Started, TwoAxisFit};

// ---- what crosses to C, under the names of tests/funclines.h; `some` is false where there is nothing

#[repr(C)]
#[derive(Drop)]
pub struct Two {
    pub values: [f32; 2],
}

#[repr(C)]
#[derive(Drop)]
pub struct Known2 {
    pub values: [f32; 2],
    pub known: bool,
}

#[repr(C)]
#[derive(Drop)]
pub struct Four {
    pub some: bool,
    pub values: [f32; 4],
}

#[repr(C)]
#[derive(Drop)]
pub struct Swapped {
    pub values: [f32; 3],
    pub swapped: bool,
}

#[repr(C)]
#[derive(Drop)]
pub struct Seed5 {
    pub some: bool,
    pub values: [f32; 5],
}

#[repr(C)]
#[derive(Drop)]
pub struct Fit6 {
    pub values: [f32; 6],
}

#[repr(C)]
#[derive(Drop)]
pub struct Start {
    pub some: bool,
    pub values: [f32; 6],
    pub updates: usize,
}

#[repr(C)]
#[derive(Drop)]
pub struct Ring {
    pub values: [f32; 6],
    pub mean: f32,
    pub counts: [usize; 3],
}

// Functions and no `From`: neither type of the first two is this crate's, and a bare array says not which values it has.
fn values_of(f: TwoAxisFit) -> [f32; 6] {
    [
        f.amp,
        f.theta1,
        f.theta2,
        f.fit_std_error_theta1,
        f.fit_std_error_theta2,
        f.rms,
    ]
}

// The functions that take a fit do not look at its mean.
fn fit_of(x: [f32; 6]) -> TwoAxisFit {
    TwoAxisFit {
        amp: x[0],
        theta1: x[1],
        theta2: x[2],
        fit_std_error_theta1: x[3],
        fit_std_error_theta2: x[4],
        rms: x[5],
        mean: 0.0,
    }
}

impl From<Started> for Start {
    fn from(s: Started) -> Start {
        Start {
            some: true,
            values: values_of(s.fit),
            updates: s.updates,
        }
    }
}

impl From<Option<Started>> for Start {
    fn from(s: Option<Started>) -> Start {
        let nothing = Start {
            some: false,
            values: [0.0f32; 6],
            updates: 0,
        };
        s.map_or(nothing, Start::from)
    }
}

fn candidate_of(x: [f32; 5]) -> SeedCandidate {
    SeedCandidate {
        theta1: x[0],
        theta2: x[1],
        mu: x[2],
        amp: x[3],
        rms: x[4],
    }
}

fn top_of(s: Seed5) -> Option<SeedCandidate> {
    s.some.then(|| candidate_of(s.values))
}

impl From<Option<SeedCandidate>> for Seed5 {
    fn from(s: Option<SeedCandidate>) -> Seed5 {
        let values = s.map(|c| [c.theta1, c.theta2, c.mu, c.amp, c.rms]);
        Seed5 {
            some: values.is_some(),
            values: values.unwrap_or([0.0f32; 5]),
        }
    }
}

// ---- 10 to 17: what Rust's library does

#[unsafe(no_mangle)]
pub extern "C" fn fl_rem_euclid_pi(x: f32) -> f32 {
    remainders::rem_euclid_pi(x)
}

#[unsafe(no_mangle)]
pub extern "C" fn fl_rem_euclid_tau(x: f32) -> f32 {
    remainders::rem_euclid_tau(x)
}

#[unsafe(no_mangle)]
pub extern "C" fn fl_max(x: f32, y: f32) -> f32 {
    floats::max(x, y)
}

#[unsafe(no_mangle)]
pub extern "C" fn fl_min(x: f32, y: f32) -> f32 {
    floats::min(x, y)
}

#[unsafe(no_mangle)]
pub extern "C" fn fl_sqrt(x: f32) -> f32 {
    roots::sqrt(x)
}

#[unsafe(no_mangle)]
pub extern "C" fn fl_narrow(x: f64) -> f32 {
    narrowing::narrow(x)
}

#[unsafe(no_mangle)]
pub extern "C" fn fl_total_key(x: f32) -> u32 {
    floats::total_key(x)
}

#[unsafe(no_mangle)]
pub extern "C" fn fl_to_radians(x: f32) -> f32 {
    floats::to_radians(x)
}

#[unsafe(no_mangle)]
pub extern "C" fn fl_bin_of(angle: f32) -> usize {
    floats::bin_of(angle)
}

// ---- 20 to 24: the elementary functions

#[unsafe(no_mangle)]
pub extern "C" fn fl_sin(x: f32) -> f32 {
    elementary::sin(x)
}

#[unsafe(no_mangle)]
pub extern "C" fn fl_cos(x: f32) -> f32 {
    elementary::cos(x)
}

#[unsafe(no_mangle)]
pub extern "C" fn fl_tanh(x: f32) -> f32 {
    elementary::tanh(x)
}

#[unsafe(no_mangle)]
pub extern "C" fn fl_exp(x: f32) -> f32 {
    elementary::exp(x)
}

#[unsafe(no_mangle)]
pub extern "C" fn fl_atan2(y: f32, x: f32) -> f32 {
    elementary::atan2(y, x)
}

// ---- 30 to 35: angles of lines; 51 and 52 are the seed's names for two of them

#[unsafe(no_mangle)]
pub extern "C" fn fl_wrap_pi(a: f32) -> f32 {
    geometry::wrap_pi(a)
}

#[unsafe(no_mangle)]
pub extern "C" fn fl_signed_line_delta(a: f32, b: f32) -> f32 {
    geometry::signed_line_delta(a, b)
}

#[unsafe(no_mangle)]
pub extern "C" fn fl_line_delta(a: f32, b: f32) -> f32 {
    geometry::line_delta(a, b)
}

#[unsafe(no_mangle)]
pub extern "C" fn fl_line_separation(a0: f32, a1: f32) -> f32 {
    geometry::line_separation(a0, a1)
}

#[unsafe(no_mangle)]
pub extern "C" fn fl_pair_disagreement(a0: f32, a1: f32, b0: f32, b1: f32) -> f32 {
    geometry::pair_disagreement(a0, a1, b0, b1)
}

#[unsafe(no_mangle)]
pub extern "C" fn fl_valid_pair(a0: f32, a1: f32) -> bool {
    geometry::valid_pair(a0, a1)
}

// ---- 40 to 46: the solver

#[unsafe(no_mangle)]
pub extern "C" fn fl_solve_4x4(a: &[[f32; 4]; 4], b: &[f32; 4]) -> Four {
    let values = solver_elimination::solve_4x4(a, b);
    Four {
        some: values.is_some(),
        values: values.unwrap_or([0.0f32; 4]),
    }
}

#[unsafe(no_mangle)]
pub extern "C" fn fl_axis_std_errors(jtj: &[[f32; 4]; 4], ssr: f32, n: usize) -> Two
    requires { n < 2 ^ 32 }
{
    let e = solver_errors::axis_std_errors(jtj, ssr, n);
    let errors = e.errors;
    Two {
        values: [errors.error1, errors.error2],
    }
}

#[unsafe(no_mangle)]
pub extern "C" fn fl_axis_std_errors_known(jtj: &[[f32; 4]; 4], ssr: f32, n: usize) -> Known2
    requires { n < 2 ^ 32 }
{
    let e = solver_errors::axis_std_errors(jtj, ssr, n);
    let errors = e.errors;
    let standing = e.standing;
    Known2 {
        values: [errors.error1, errors.error2],
        known: standing.known,
    }
}

#[unsafe(no_mangle)]
pub extern "C" fn fl_degenerate_fit(centered_var: f32) -> Fit6 {
    let values = values_of(solver_record::degenerate_fit(centered_var, 0.0));
    Fit6 { values }
}

#[unsafe(no_mangle)]
pub extern "C" fn fl_canonicalize_tracking_swap(theta1: f32, theta2: f32, amp: f32) -> Swapped {
    let a = solver_axes::canonicalize_tracking_swap(theta1, theta2, amp);
    Swapped {
        values: [a.theta1, a.theta2, a.amp],
        swapped: a.swapped,
    }
}

#[unsafe(no_mangle)]
pub extern "C" fn fl_wrap_to_tau(x: f32) -> f32 {
    solver_axes::wrap_to_tau(x)
}

// The seed is theta1, theta2, amp, mu.
#[unsafe(no_mangle)]
pub extern "C" fn fl_fit_with_seed(
    samples: &[f32; 16],
    ring_phi: &[f32; 16],
    seed: &[f32; 4],
    centered_var: f32,
) -> Start {
    let p = Params {
        mu: seed[3],
        amp: seed[2],
        theta1: seed[0],
        theta2: seed[1],
    };
    let mut sphi = [0.0f32; 16];
    let mut cphi = [0.0f32; 16];
    let mut js = [Sample::NONE; 16];
    Start::from(solver::fit_with_seed(
        samples,
        ring_phi,
        p,
        centered_var,
        &mut sphi,
        &mut cphi,
        &mut js,
    ))
}

// ---- 50 to 54: seeds

#[unsafe(no_mangle)]
pub extern "C" fn fl_second_harmonic(samples: &[f32; 16], ring_phi: &[f32; 16], mean: f32) -> Two {
    let mut turned = [0.0f32; 16];
    let mut sphi = [0.0f32; 16];
    let mut cphi = [0.0f32; 16];
    let h = seed::second_harmonic(samples, ring_phi, mean, &mut turned, &mut sphi, &mut cphi);
    Two {
        values: [h.theta, h.mag],
    }
}

#[unsafe(no_mangle)]
pub extern "C" fn fl_score_seed_pair(
    centered: &[f32; 16],
    centered_sum_sq: f32,
    mean: f32,
    h1: &[f32; 16],
    h2: &[f32; 16],
    theta1: f32,
    theta2: f32,
) -> Seed5 {
    Seed5::from(seed::score_seed_pair(centered, centered_sum_sq, mean, h1, h2, theta1, theta2))
}

#[unsafe(no_mangle)]
pub extern "C" fn fl_insert_seed_candidate(top: Seed5, candidate: &[f32; 5]) -> Seed5 {
    Seed5::from(seed::insert_seed_candidate(top_of(top), candidate_of(*candidate)))
}

// ---- 68: a seed model's score

#[unsafe(no_mangle)]
pub extern "C" fn fl_score_cached_seed_model(
    centered: &[f32; 16],
    centered_sum_sq: f32,
    mean: f32,
    theta1: f32,
    theta2: f32,
    q_mean: f32,
    q_centered: &[f32; 16],
    denom: f32,
) -> Seed5 {
    Seed5::from(seed_models::score_cached_seed_model(
        centered,
        centered_sum_sq,
        mean,
        theta1,
        theta2,
        q_mean,
        q_centered,
        denom,
    ))
}

// ---- 60 to 67: the whole ring; 60 and 66 are one export, and 67's tables are made and stored by the library's own calls

impl From<RingFit> for Ring {
    fn from(r: RingFit) -> Ring {
        Ring {
            values: values_of(r.fit),
            mean: r.fit.mean,
            counts: [r.starts, r.first, r.second],
        }
    }
}

#[unsafe(no_mangle)]
pub extern "C" fn fl_fit_ring(samples: &[f32; 16], ring_phi: &[f32; 16]) -> Ring {
    Ring::from(robust::fit_ring::<16>(samples, ring_phi))
}

#[unsafe(no_mangle)]
pub extern "C" fn fl_fit_ring24(samples: &[f32; 24], ring_phi: &[f32; 24]) -> Ring {
    Ring::from(robust::fit_ring::<24>(samples, ring_phi))
}

#[unsafe(no_mangle)]
pub extern "C" fn fl_tables_fit(
    tables: &[f32; seed_models::STATE_SIZE],
    samples: &[f32; 16],
    ring_phi: &[f32; 16],
) -> Ring {
    Ring::from(robust::fit_ring_with(tables, samples, ring_phi))
}

// The number of the first table whose angles are near, or 3.
#[unsafe(no_mangle)]
pub extern "C" fn fl_tables_match(
    tables: &[f32; seed_models::STATE_SIZE],
    ring_phi: &[f32; 16],
) -> usize {
    seed_models::first_table(tables, ring_phi).unwrap_or(seed_models::MOST_TABLES)
}

#[unsafe(no_mangle)]
pub extern "C" fn fl_fit_is_suspicious(fit: &[f32; 6]) -> bool {
    robust::fit_is_suspicious(fit_of(*fit))
}

#[unsafe(no_mangle)]
pub extern "C" fn fl_relative_rms(fit: &[f32; 6]) -> f32 {
    robust::relative_rms(fit_of(*fit))
}

#[unsafe(no_mangle)]
pub extern "C" fn fl_robust_grid_fit(
    samples: &[f32; 16],
    ring_phi: &[f32; 16],
    mean: f32,
    centered_var: f32,
) -> Start {
    Start::from(robust::robust_grid_fit(samples, ring_phi, mean, centered_var))
}

#[unsafe(no_mangle)]
pub extern "C" fn fl_refine_seed_candidates(
    samples: &[f32; 16],
    ring_phi: &[f32; 16],
    centered_var: f32,
    top: Seed5,
) -> Start {
    Start::from(robust::refine_seed_candidates(samples, ring_phi, centered_var, top_of(top)))
}

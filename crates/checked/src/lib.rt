// The checked entries: what a caller gets who may hand over anything. Wrong lengths and values that
// are not finite are refused by number and place; everything else is fitted.
#![tactic(auto)]

ghost use Rattle.std.specs.Prelude.{◌≡◌, [], ◌<◌, ◌≤◌, length, IfSome};
ghost use Rattle.solver.specs.Buffers.{max_samples};
ghost use Rattle.data.specs.Data.{lent_disk, max_tanh_pixels};
ghost use Rattle.data.specs.Disk.{the_disk};
ghost use Rattle.seed_models.specs.Words.{tables_in};
ghost use Rattle.checked.specs.Checked as C;
ghost use Rattle.checked.specs.Parts as P;

use data::Disk;
use robust_choice::RingFit;
use score::Fit;
use solver_errors::Estimate;

// Why a call is refused: the cases have their numbers from docs/RULES.md, Refusals.
#[derive(Clone, Copy, PartialEq, Eq)]
pub enum Refusal {
    WrongLength,
    PixelCount,
    // where the first value stands that is not finite
    NotFinite(u16),
    // after so many trials
    NothingFound(u16),
    TablesFull,
}

impl Refusal {
    pub fn number(self) -> u8
        ensures { result ≡ C.refusal_number self }
    {
        match self {
            Refusal::WrongLength => 1,
            Refusal::PixelCount => 2,
            Refusal::NotFinite(_) => 3,
            Refusal::NothingFound(_) => 4,
            Refusal::TablesFull => 6,
        }
    }

    pub fn place(self) -> u16
        ensures { result ≡ C.refusal_place self }
    {
        match self {
            Refusal::NotFinite(place) => place,
            Refusal::NothingFound(trials) => trials,
            Refusal::WrongLength | Refusal::PixelCount | Refusal::TablesFull => 0,
        }
    }
}

// No end comes early: the loop has no branch on a value.
fn all_finite(xs: &[f32]) -> bool
    ensures { result ≡ P.all_finite xs.now }
{
    xs.iter()
        .fold(true, |fine, x| floats::is_finite(*x) && fine)
}

fn find_wild(xs: &[f32]) -> Option<usize>
    ensures { result ≡ P.wild_position xs.now }
{
    xs.iter().position(|x| !floats::is_finite(*x))
}

// Whether all are finite is asked first: the place is looked for only where it is needed.
pub fn first_wild(xs: &[f32]) -> Option<usize>
    ensures value { result ≡ C.first_wild xs.now }
    ensures inside { IfSome result (λ i. i < length xs.now) }
{
    if all_finite(xs) {
        return None;
    }
    find_wild(xs)
}

// That all values are finite; their places count from `from`.
pub fn check_values(xs: &[f32], from: u16) -> Result<(), Refusal>
    requires { (length xs.now ≤ max_tanh_pixels) × (from ≤ 4096) }
    ensures { result ≡ P.values_from from xs.now }
{
    match first_wild(xs) {
        None => Ok(()),
        Some(i) => Err(Refusal::NotFinite(from + i as u16)),
    }
}

// That a ring has n samples and n angles, all of them finite; the angles' places count on from n.
fn check_ring(n: usize, samples: &[f32], angles: &[f32]) -> Result<(), Refusal>
    requires { n ≤ max_samples }
    ensures { P.RingTested n samples.now angles.now result }
{
    if samples.len() != n || angles.len() != n {
        return Err(Refusal::WrongLength);
    }
    check_values(samples, 0)?;
    check_values(angles, n as u16)
}

// A ring of N samples: any two slices.
pub fn fit_ring_of<const N: usize>(samples: &[f32], angles: &[f32]) -> Result<RingFit, Refusal>
    requires { P.RingSize N }
    ensures { result ≡ C.checked_ring [] N samples.now angles.now }
{
    check_ring(N, samples, angles)?;
    Ok(robust::fit_ring::<N>(samples, angles))
}

// Two entries over the generic one: both are promised, and ask nothing, where that one asks of N. They are put into their
// callers: compiled as functions with the generic one in them, a ring that is refused for a value took half as long again.
// The ring entry, which asks nothing: the Rust's ring.
#[inline(always)]
pub fn fit_ring(samples: &[f32], angles: &[f32]) -> Result<RingFit, Refusal>
    ensures { result ≡ C.checked_ring [] 16 samples.now angles.now }
{
    fit_ring_of::<16>(samples, angles)
}

// The same of 24 samples, ours.
#[inline(always)]
pub fn fit_ring24(samples: &[f32], angles: &[f32]) -> Result<RingFit, Refusal>
    ensures { result ≡ C.checked_ring [] 24 samples.now angles.now }
{
    fit_ring_of::<24>(samples, angles)
}

// A ring with the tables that the words hold, whatever they are.
pub fn fit_ring_with(
    words: &[f32; seed_models::STATE_SIZE],
    samples: &[f32],
    angles: &[f32],
) -> Result<RingFit, Refusal>
    ensures { result ≡ C.checked_ring (tables_in words.now) 16 samples.now angles.now }
{
    check_ring(16, samples, angles)?;
    Ok(robust::fit_ring_with(words, samples, angles))
}

// A disk's fit with the errors of its axes and their standing, and the number of trials.
#[derive(Clone, Copy)]
pub struct Measured {
    pub fit: Fit,
    pub estimate: Estimate,
    pub trials: usize,
}

// The base angles are no part of a Disk: the search starts from them, and its scores do not read them.
fn check_disk_values(d: Disk, base0: f32, base1: f32) -> Result<(), Refusal>
    ensures { result ≡ P.values_test (C.first_wild (C.disk_inputs (the_disk d.entry) base0 base1)) }
{
    let n = d.xs.len() as u16;
    check_values(&[d.val_energy, base0, base1], 0)?;
    check_values(d.xs, 3)?;
    check_values(d.ys, 3 + n)?;
    check_values(d.vals_centered, 3 + 2 * n)?;
    check_values(d.grad_angles, 3 + 3 * n)?;
    check_values(d.grad_weights, 3 + 4 * n)
}

fn disk_fitted(d: Disk, base0: f32, base1: f32) -> Result<Measured, Refusal>
    ensures { result ≡ C.disk_fitted (the_disk d.entry) base0 base1 }
{
    match search::best_disk_fit(d, base0, base1) {
        Ok(found) => Ok(Measured {
            fit: found.best,
            estimate: score::fit_std_errors(d.xs, d.ys, d.vals_centered, found.best),
            trials: found.trials,
        }),
        Err(trials) => Err(Refusal::NothingFound(trials as u16)),
    }
}

// The disk entry: any five slices. They come apart, since a Disk has them of one length.
pub fn fit_disk(
    val_energy: f32,
    base0: f32,
    base1: f32,
    xs: &[f32],
    ys: &[f32],
    vals_centered: &[f32],
    grad_angles: &[f32],
    grad_weights: &[f32],
) -> Result<Measured, Refusal>
    ensures { result ≡ C.checked_disk (lent_disk val_energy xs ys vals_centered grad_angles grad_weights) base0 base1 }
{
    let n = xs.len();
    if n == 0 || n > data::MAX_TANH_PIXELS {
        return Err(Refusal::PixelCount);
    }
    if ys.len() != n
        || vals_centered.len() != n
        || grad_angles.len() != n
        || grad_weights.len() != n
    {
        return Err(Refusal::WrongLength);
    }
    let d = Disk {
        val_energy,
        xs,
        ys,
        vals_centered,
        grad_angles,
        grad_weights,
    };
    check_disk_values(d, base0, base1)?;
    disk_fitted(d, base0, base1)
}

// Which start a ring's answer is of: ring_fit/robust.rs, the end of fit_ring.
#![tactic(auto)]

ghost use Rattle.std.specs.Prelude.{◌≡◌};
ghost use Rattle.robust_choice.specs.Parts as P;

use solver_errors::Standing;
use solver_record::{Started, TwoAxisFit};

// No Option of the second: C and the lines have three counts, with 0 updates where there was no second start.
// The fit that is answered with the standing of its errors, the number of starts, and the updates of each.
#[derive(Clone, Copy)]
pub struct RingFit {
    pub fit: TwoAxisFit,
    pub standing: Standing,
    pub starts: usize,
    pub first: usize,
    pub second: usize,
}

// The answer without the grid.
pub fn alone(primary: Started) -> RingFit
    ensures { result ≡ P.alone_of primary }
{
    let fit = primary.fit;
    let standing = primary.standing;
    RingFit {
        fit,
        standing,
        starts: 1,
        first: primary.updates,
        second: 0,
    }
}

// Of two starts the second is answered only where its residual is lower by more than 1e-3.
fn lower(primary: Started, candidate: Started) -> Started
    ensures { result ≡ P.lower_of primary candidate }
{
    let f = primary.fit;
    let g = candidate.fit;
    if g.rms < f.rms - 1e-3 {
        return candidate;
    }
    primary
}

// The answer with a second start, where there was one.
pub fn chosen(primary: Started, second: Option<Started>) -> RingFit
    ensures { result ≡ P.chosen_of primary second }
{
    let Some(candidate) = second else {
        return alone(primary);
    };
    let answered = lower(primary, candidate);
    let fit = answered.fit;
    let standing = answered.standing;
    RingFit {
        fit,
        standing,
        starts: 2,
        first: primary.updates,
        second: candidate.updates,
    }
}

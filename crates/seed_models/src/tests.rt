// The values are worked out by hand: the first model that is not flat is just what the samples are, so that the residual is 0, and no
// later one is better.

ghost use Rattle.std.specs.Prelude.{refl};
ghost use Rattle.floats.specs.Rows.{count};
ghost use Rattle.seed_models.specs.Parts as P;

use super::*;

fn values(seed: Option<SeedCandidate>) -> Option<[f32; 5]> {
    let s = seed?;
    Some([s.theta1, s.theta2, s.mu, s.amp, s.rms])
}

// The axes of the first pair, 0 and 16 degrees; the mean, the amplitude, the residual.
const WANT: Option<[f32; 5]> = Some([0.0, 0.279252678, 10.0, 1.0, 0.0]);

#[test]
fn best_seed_of_grid_rows(rt: HostRuntime) {
    let centered = [1.0, -1.0, 1.0, -1.0];
    let mut rows = [[0.0; robust_lanes::ROW_PLACES]; 4];
    for i in 0..4 {
        rows[i][0] = 1.0;
        rows[i][2] = centered[i];
    }
    let seed = best_seed(&Grid { rows: &rows }, &centered, 4.0, 10.0);
    assert_eq!(rt; values(seed), WANT);
}

#[test]
fn best_seed_of_stored_words(rt: HostRuntime) {
    let mut centered = [1.0; RING_SAMPLES];
    let mut table = [0.0; TABLE_SIZE];
    table[RING_SAMPLES + 4] = 16.0;
    for i in 0..RING_SAMPLES {
        if i % 2 == 1 {
            centered[i] = -1.0;
        }
        table[RING_SAMPLES + 8 + 4 * i] = centered[i];
    }
    let seed = best_seed(&Stored { table: &table }, &centered, 16.0, 10.0);
    assert_eq!(rt; values(seed), WANT);
}

// A kind of models of another crate's: each block has the same.
#[derive(Drop)]
struct Same(Models);

impl Blocks<2> for Same {
    ghost lanes_of = { λ s centered j. s.0 };

    ghost seed_of = { λ s centered centered_ss mean. P.walk (count 2) centered_ss mean (λ j. s.0) };

    ghost walked = { λ s centered centered_ss mean l. refl };

    fn lanes(&self, _centered: &[f32; 2], _p: Pair, _j: usize) -> Models {
        self.0
    }
}

#[test]
fn best_seed_of_other_models(rt: HostRuntime) {
    let models = Models {
        q_mean: [0.0; 4],
        denom: [2.0, 0.0, 0.0, 0.0],
        num: [2.0, 0.0, 0.0, 0.0],
    };
    let seed = best_seed(&Same(models), &[1.0, -1.0], 2.0, 10.0);
    assert_eq!(rt; values(seed), WANT);
}

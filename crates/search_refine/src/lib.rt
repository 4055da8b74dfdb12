// The refinement of a fit: disk_sector/search.rs, refine_fit_cached. Each of the 24 neighbours is
// taken around the best of its moment; the rows of its axes are kept or made by search_rows. The
// public contract knows of no kept rows.
#![tactic(auto)]

ghost use Rattle.std.specs.Prelude.{◌≡◌, ◌+◌, ◌<◌, length, get_or};
ghost use Rattle.data.specs.Disk.{the_disk};
ghost use Rattle.search_rows.specs.Rows.{SlotsKept, rows_room};
ghost use Rattle.search_refine.specs.Refine as R;
ghost use Rattle.search_refine.specs.RefineLaws as L;

use data::Disk;
use score::Fit;
use search_rows::Slots;

// The neighbours of a refinement: three steps of eight.
const NEIGHBOURS: usize = 24;

// The best fit found, and how many neighbours were scored.
#[derive(Drop)]
pub struct Refined {
    pub best: Fit,
    pub trials: usize,
}

// How far a neighbour's axes lie from those of the best.
#[derive(Drop)]
pub struct Offset {
    pub d0: f32,
    pub d1: f32,
}

// What a turn hands to the next: the best and the number of trials so far, and the rows kept.
#[derive(Drop)]
struct Turn {
    refined: Refined,
    slots: Slots,
}

// The place of neighbour t in its step's square of three by three, row by row; the middle is none.
fn place(t: usize) -> usize
    ensures { (result ≡ L.place_of t) × (result < 9) }
{
    let m = t % 8;
    m + m / 4
}

// The offsets of neighbour t: the steps are 1, 0.5 and 0.25 degrees.
fn offset_at(t: usize) -> Offset
    requires { t < R.neighbours }
    ensures { result ≡ get_or R.offsets t R.nowhere }
{
    let steps_deg = [1.0f32, 0.5, 0.25];
    let step = floats::to_radians(steps_deg[t / 8]);
    let offsets = [-step, 0.0, step];
    let k = place(t);
    Offset {
        d0: offsets[k / 3],
        d1: offsets[k % 3],
    }
}

// A neighbour that is better becomes the best; one that answers nothing is a trial too.
fn judge(s: Refined, answer: Option<Fit>) -> Refined
    requires { s.trials < 1000 }
    ensures { (result.trials ≡ s.trials + 1) × (result.best ≡ R.better_of answer s.best) }
{
    let best = match answer {
        Some(fit) if score::fit_is_better(fit, s.best) => fit,
        _ => s.best,
    };
    Refined {
        best,
        trials: s.trials + 1,
    }
}

// Neighbour t of the best.
fn try_neighbour(d: Disk, turn: Turn, t: usize, rows: &mut [f32]) -> Turn
    requires { (t < R.neighbours) × (turn.refined.trials < 1000)
        × SlotsKept d.xs.now d.ys.now d.grad_angles.now d.grad_weights.now
        turn.refined.best.width turn.slots rows.old }
    ensures { let D = the_disk d.entry in (result.refined.trials ≡ turn.refined.trials + 1)
        × SlotsKept D.xs D.ys D.grad_angles D.grad_weights
        result.refined.best.width result.slots rows.new
        × (result.slots.total ≡ turn.slots.total)
        × (result.refined.best ≡ R.tried D turn.slots.total (get_or R.offsets t R.nowhere) turn.refined.best) }
{
    let (xs, ys) = (d.xs, d.ys);
    let (angles, weights) = (d.grad_angles, d.grad_weights);
    let before = turn.refined;
    let best = before.best;
    let width = best.width;
    let o = offset_at(t);
    let t1 = best.theta1 + o.d0;
    let t2 = best.theta2 + o.d1;
    let k = place(t);
    let none = turn.slots;
    let i = search_rows::slot_of(none, 0, best.theta1, t1, k / 3);
    let one = search_rows::hold(xs, ys, angles, weights, none, t1, width, i, rows);
    let j = search_rows::slot_of(one, 3, best.theta2, t2, k % 3);
    let slots = search_rows::hold(xs, ys, angles, weights, one, t2, width, j, rows);
    let vals = d.vals_centered;
    let answer = search_rows::score_held(d.val_energy, vals, slots, width, i, j, rows);
    let refined = judge(before, answer);
    Turn { refined, slots }
}

// Step 6 of best_disk_fit, for one leader: 24 neighbours of a fit. `rows` has room for seven rows;
// what it holds before and after is of no account.
pub fn refine_fit_cached(d: Disk, seed: Fit, rows: &mut [f32]) -> Refined
    requires { length rows.old ≡ rows_room }
    ensures { result ≡ R.refine_fit_cached (the_disk d.entry) seed }
{
    let total = score_edges::edge_weight_total(d.grad_weights);
    let mut turn = Turn {
        refined: Refined {
            best: seed,
            trials: 0,
        },
        slots: search_rows::no_slots(total),
    };
    for t in 0..NEIGHBOURS {
        turn = try_neighbour(d, turn, t, rows);
    }
    turn.refined
}

// The rows of the refinement: disk_sector/search.rs, build_axis_rows. The refinement keeps three
// rows an axis, each in a slot with the angle that it was made for as its key, and makes a row only
// where no slot has it. All rows stand in one lent buffer, 320 places apart: axis 1 in the slots 0 to
// 2, axis 2 in 3 to 5, and scratch behind them.
#![tactic(auto)]

ghost use Rattle.std.specs.Prelude.{◌≡◌, true, ◌+◌, ◌≤◌, ◌<◌, Float, length};
ghost use Rattle.std.specs.Float.Ieee.{lt};
ghost use Rattle.floats.specs.Ops.{nought};
ghost use Rattle.floats.specs.Rows.{Row};
ghost use Rattle.data.specs.Data.{disk_of, OfValues, max_tanh_pixels};
ghost use Rattle.score.specs.Score.{axis_row};
ghost use Rattle.score_edges.specs.Edges.{refined_sum};
ghost use Rattle.search_rows.specs.Rows as R;

use score::{Fit, Trial};
use score_edges::Refinement;

const SCRATCH: usize = 6 * data::MAX_TANH_PIXELS;

// The buffer's length.
pub const ROWS: usize = SCRATCH + data::MAX_TANH_PIXELS;

// The angle that a row was made for, 0 while there is none, and the row's edge sum.
// The 0 is no Option: score_held would have to unwrap what `hold` has just put there, and is_same needs its test of 0 all the same.
#[derive(Clone, Copy, Default)]
pub struct Slot {
    pub key: f32,
    pub edge: f32,
}

// The six slots, and the total of the weights.
#[derive(Clone, Copy)]
pub struct Slots {
    pub held: [Slot; 6],
    pub total: f32,
}

// Six empty slots.
pub fn no_slots(total: f32) -> Slots
    ensures { result ≡ R.no_slots total }
{
    let held = [Slot::default(); 6];
    Slots { held, total }
}

// The row of an axis at theta into row q of the buffer, and its edge sum.
fn fill_row(
    xs: &[f32],
    ys: &[f32],
    grad_angles: &[f32],
    grad_weights: &[f32],
    theta: f32,
    width: f32,
    q: usize,
    rows: &mut [f32],
) -> f32
    requires { (q < 6) × R.Outlined xs.now ys.now grad_angles.now grad_weights.now × (length rows.old ≡ R.rows_room) }
    ensures { (result ≡ refined_sum (length xs.now) grad_angles.now grad_weights.now theta)
        × R.RowFilled (length xs.now) q (axis_row (length xs.now) xs.now ys.now theta width)
        rows.old rows.new }
{
    let n = xs.len();
    let b = q * data::MAX_TANH_PIXELS;
    let e = b + n;
    score::axis_row(xs, ys, theta, width, &mut rows[b..e]);
    let from = SCRATCH;
    let to = from + n;
    score_edges::edge_sum::<Refinement>(grad_angles, grad_weights, theta, &mut rows[from..to])
}

// The three rows of an axis around base, into the first three rows of the buffer, and their edge
// sums. The refinement makes a row at a time: the function lines alone call this.
pub fn build_axis_rows(
    xs: &[f32],
    ys: &[f32],
    grad_angles: &[f32],
    grad_weights: &[f32],
    base: f32,
    offsets: &[f32; 3],
    width: f32,
    rows: &mut [f32],
) -> [f32; 3]
    requires { R.Outlined xs.now ys.now grad_angles.now grad_weights.now × (length rows.old ≡ R.rows_room) }
    ensures { (energy : Float) (vals : Row) → ◌≡◌ {A = R.AxisRows}
        (record { rows = R.rows_of (length xs.now) rows.exit.now 3; edges = result })
        (R.build_axis_rows (disk_of energy xs.now ys.now vals grad_angles.now grad_weights.now)
        base offsets.now width) }
{
    let mut edges = [0.0f32; 3];
    // By number: k is the row to fill, the offset and the place of its sum.
    for k in 0..3usize {
        let theta = base + offsets[k];
        edges[k] = fill_row(xs, ys, grad_angles, grad_weights, theta, width, k, rows);
    }
    edges
}

// Above 0 equal numbers are one value: a key of 0 marks an empty slot.
fn is_same(key: f32, theta: f32) -> bool
    ensures { (result ≡ R.is_same key theta) × (result ≡ true → (key ≡ theta) × (lt nought theta ≡ true)) }
{
    if key == theta {
        return theta > 0.0;
    }
    false
}

// The slot of an axis whose key is theta, or else the one to fill: the k-th, unless the row of the
// best itself stands there. `from` is the axis's first slot.
pub fn slot_of(slots: Slots, from: usize, base: f32, theta: f32, k: usize) -> usize
    requires { (from ≤ 3) × (k < 3) }
    ensures { (result ≡ R.slot_of slots from base theta k) × (from ≤ result) × (result < from + 3) }
{
    // By place: the answer is one, counted from the first of all six, as no `position` in the three would.
    for q in from..from + 3 {
        if is_same(slots.held[q].key, theta) {
            return q;
        }
    }
    let q = from + k;
    if slots.held[q].key == base {
        return from + 1;
    }
    q
}

// The slots with theta in slot q, whether its row was kept or is made.
pub fn hold(
    xs: &[f32],
    ys: &[f32],
    grad_angles: &[f32],
    grad_weights: &[f32],
    slots: Slots,
    theta: f32,
    width: f32,
    q: usize,
    rows: &mut [f32],
) -> Slots
    requires { (q < 6) × R.Outlined xs.now ys.now grad_angles.now grad_weights.now
        × R.SlotsKept xs.now ys.now grad_angles.now grad_weights.now width slots rows.old }
    ensures { R.SlotHeld xs.now ys.now grad_angles.now grad_weights.now theta width
        slots rows.old result rows.new q }
{
    if is_same(slots.held[q].key, theta) {
        return slots;
    }
    let mut s = slots;
    let edge = fill_row(xs, ys, grad_angles, grad_weights, theta, width, q, rows);
    s.held[q] = Slot { key: theta, edge };
    s
}

// The score of the axes in the slots i and j.
pub fn score_held(
    val_energy: f32,
    vals_centered: &[f32],
    slots: Slots,
    width: f32,
    i: usize,
    j: usize,
    rows: &[f32],
) -> Option<Fit>
    requires { (i < 6) × (j < 6) × (length vals_centered.now ≤ max_tanh_pixels) × (length rows.now ≡ R.rows_room) }
    ensures { OfValues val_energy vals_centered (λ D. result ≡ R.held_score D slots width i j rows.now) }
{
    let n = vals_centered.len();
    let a = i * data::MAX_TANH_PIXELS;
    let ae = a + n;
    let b = j * data::MAX_TANH_PIXELS;
    let be = b + n;
    let first = slots.held[i];
    let second = slots.held[j];
    let t = Trial {
        theta0: first.key,
        theta1: second.key,
        width,
        edge_score: candidates::combine_edge_pair(first.edge, second.edge, slots.total),
    };
    score::score_pair_cached(val_energy, vals_centered, t, &rows[a..ae], &rows[b..be])
}

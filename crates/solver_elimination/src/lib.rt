// Elimination of a 4 by 4 system with one right side or two: ring_fit/solver.rs, solve_4x4. A row has eight places: the
// matrix, two right sides, and two that lie idle, so that it is two vectors of four.
#![tactic(auto)]

ghost use Rattle.std.specs.Prelude.{◌≡◌, false, ◌<◌};
ghost use Rattle.floats.specs.Rows.{at};
ghost use Rattle.solver_elimination.specs.Solve as S;
ghost use Rattle.solver_elimination.specs.Wide as W;

// The solutions for two right sides. One elimination succeeds for both or for neither.
#[derive(Clone, Copy)]
pub struct Sides {
    pub first: [f32; 4],
    pub second: [f32; 4],
}

fn widened_row(r: [f32; 4], b: f32, c: f32) -> [f32; 8]
    ensures { result ≡ W.widened_row r b c }
{
    [r[0], r[1], r[2], r[3], b, c, 0.0, 0.0]
}

// That i is below 4 is asked of each: the 4 by 4 array with plain indices is the form that this project names.
// Row k or the best so far: k where its entry in column i is larger in size.
#[tactic(auto, unfolding(crate::specs::Solve::larger))]
fn larger(m: &[[f32; 8]; 4], i: usize, k: usize, best: usize) -> usize
    requires { (i < 4) × (k < 4) × (best < 4) }
    ensures { (result < 4) × (result ≡ S.larger m.now i k best) }
{
    if floats::abs(m[k][i]) > floats::abs(m[best][i]) {
        return k;
    }
    best
}

// The row, from the diagonal down, that has the largest size in column i.
fn pivot_row(m: &[[f32; 8]; 4], i: usize) -> usize
    requires { i < 4 }
    ensures { (result < 4) × (result ≡ S.pivot_row m.now i) }
{
    let mut best = i;
    // By place, here and below: rows and columns of the 4 by 4 array are numbers, the form that this project names.
    for k in i + 1..4 {
        best = larger(m, i, k, best);
    }
    best
}

#[tactic(auto, unfolding(crate::specs::Solve::unusable))]
fn is_unusable(p: f32) -> bool
    ensures { result ≡ S.unusable p }
{
    if floats::is_finite(p) {
        return floats::abs(p) < 1e-20;
    }
    true
}

fn scaled(r: [f32; 8], f: f32) -> [f32; 8]
    ensures { result ≡ S.scaled r f }
{
    [
        r[0] * f,
        r[1] * f,
        r[2] * f,
        r[3] * f,
        r[4] * f,
        r[5] * f,
        r[6] * f,
        r[7] * f,
    ]
}

// Row r less f times the pivot row p, where f, the entry of r at the column, is not 0.
fn reduced(r: [f32; 8], p: [f32; 8], f: f32) -> [f32; 8]
    ensures { result ≡ S.reduced r p f }
{
    if f == 0.0 {
        return r;
    }
    [
        r[0] - f * p[0],
        r[1] - f * p[1],
        r[2] - f * p[2],
        r[3] - f * p[3],
        r[4] - f * p[4],
        r[5] - f * p[5],
        r[6] - f * p[6],
        r[7] - f * p[7],
    ]
}

// Row k after column i was cleared by the pivot row p, which stays; f is the row's entry there.
#[tactic(auto, unfolding(crate::specs::Solve::cleared))]
fn cleared(row: [f32; 8], p: [f32; 8], f: f32, i: usize, k: usize) -> [f32; 8]
    requires { f ≡ at row i }
    ensures { result ≡ S.cleared i p k row }
{
    if k == i {
        return row;
    }
    reduced(row, p, f)
}

fn clear(m: &mut [[f32; 8]; 4], i: usize, p: [f32; 8])
    requires { i < 4 }
    ensures { m.new ≡ S.clear m.old i p }
{
    for k in 0..4 {
        let f = m[k][i];
        let row = m[k];
        let next = cleared(row, p, f, i, k);
        m[k] = next;
    }
}

// Column i: the pivot's row comes to the diagonal, is scaled to 1 there, and clears the column in
// the others. True where the pivot stops the elimination. It has one caller, so that the compiler puts it into that loop.
#[tactic(auto, unfolding(crate::specs::Solve::stopped, crate::specs::Solve::top_row, crate::specs::Solve::columned))]
fn column_stops(m: &mut [[f32; 8]; 4], i: usize) -> bool
    requires { i < 4 }
    ensures { (result ≡ S.stopped m.old i) × (result ≡ false → m.new ≡ S.columned m.old i) }
{
    let p = pivot_row(m, i);
    let pivot = m[p][i];
    let old = m[i];
    let top = m[p];
    m[i] = top;
    m[p] = old;
    if is_unusable(pivot) {
        return true;
    }
    let row = scaled(top, 1.0 / pivot);
    m[i] = row;
    clear(m, i, row);
    false
}

// Both right sides, b and c, go through one elimination. They come by their entries, in registers, and the matrix is on its
// way in this function's own frame: neither takes room in the frame of a caller, where a pass over the samples comes next.
pub fn eliminate(
    a: &[[f32; 4]; 4],
    b0: f32,
    b1: f32,
    b2: f32,
    b3: f32,
    c0: f32,
    c1: f32,
    c2: f32,
    c3: f32,
) -> Option<Sides>
    ensures { result ≡ W.sides (S.solve4x4 a.now (W.right_side b0 b1 b2 b3)) (S.solve4x4 a.now (W.right_side c0 c1 c2 c3)) }
{
    let r0 = widened_row(a[0], b0, c0);
    let r1 = widened_row(a[1], b1, c1);
    let r2 = widened_row(a[2], b2, c2);
    let r3 = widened_row(a[3], b3, c3);
    let mut m = [r0, r1, r2, r3];
    for i in 0..4 {
        if column_stops(&mut m, i) {
            return None;
        }
    }
    let first = [m[0][4], m[1][4], m[2][4], m[3][4]];
    let second = [m[0][5], m[1][5], m[2][5], m[3][5]];
    Some(Sides { first, second })
}

// One right side is carried twice.
pub fn solve_4x4(a: &[[f32; 4]; 4], b: &[f32; 4]) -> Option<[f32; 4]>
    ensures { result ≡ S.solve4x4 a.now b.now }
{
    let b0 = b[0];
    let b1 = b[1];
    let b2 = b[2];
    let b3 = b[3];
    let sides = eliminate(a, b0, b1, b2, b3, b0, b1, b2, b3)?;
    Some(sides.first)
}

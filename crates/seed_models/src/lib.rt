// Seed models for a ring that does not move: ring_fit/seed.rs and robust.rs under the feature `std`, with tables of angles
// that a caller supplies, in memory that the caller lends.
#![tactic(auto)]

ghost use Rattle.std.specs.Prelude.{◌≡◌, refl, ℕ, ◌&&◌, ◌++◌, ◌≤◌, ◌<◌, length, drop, Option, Float};
ghost use Rattle.floats.specs.Rows.{Row, at, count};
ghost use Rattle.solver.specs.Buffers.{max_samples};
ghost use Rattle.seed.specs.declared.SeedCandidate.{SeedCandidate};
ghost use Rattle.robust_lanes.specs.declared.Models.{Models};
ghost use Rattle.robust_grid.specs.Grid.{best_of};
ghost use Rattle.robust_grid.specs.Places.{block_pair, blocks, score_at};
ghost use Rattle.seed_models.specs.Models as M;
ghost use Rattle.seed_models.specs.Words as W;
ghost use Rattle.seed_models.specs.Parts as P;
ghost use Rattle.seed_models.specs.WalkLaws.{grid_walked, table_fits, table_walked};

use robust_grid::Pair;
use robust_lanes::{GridRow, Models};
use seed::SeedCandidate;

// The samples of a ring that has a table.
pub const RING_SAMPLES: usize = 16;

// A block of four models: four q_mean, four denom, and four q_centered for each sample.
const BLOCK_SIZE: usize = 72;

// The angles and the blocks.
pub const TABLE_SIZE: usize = RING_SAMPLES + robust_grid::BLOCKS * BLOCK_SIZE;

pub const MOST_TABLES: usize = 3;

// A count and the tables.
pub const STATE_SIZE: usize = 1 + MOST_TABLES * TABLE_SIZE;

// The sums of a pair's products and of their squares.
#[derive(Drop)]
pub struct QSums {
    pub q_sum: f32,
    pub q2_sum: f32,
}

// ---- the score of one model

fn num_of(centered: &[f32], q_centered: &[f32]) -> f32
    requires { length q_centered.now ≡ length centered.now }
    ensures { result ≡ M.num_of (length centered.now) centered.now (at q_centered.now) }
{
    let mut num = 0.0f32;
    for (v, q) in centered.iter().zip(q_centered) {
        num += *v * *q;
    }
    num
}

pub fn score_cached_seed_model(
    centered: &[f32],
    centered_ss: f32,
    mean: f32,
    theta1: f32,
    theta2: f32,
    q_mean: f32,
    q_centered: &[f32],
    denom: f32,
) -> Option<SeedCandidate>
    requires { (length q_centered.now ≡ length centered.now) × (length centered.now ≤ max_samples) }
    ensures { result ≡ M.score_cached_seed_model (length centered.now) centered.now centered_ss mean
        (record { theta1 = theta1; theta2 = theta2; q_mean = q_mean; q_centered = q_centered.now; denom = denom }) }
{
    let num = num_of(centered, q_centered);
    let n = floats::count_f32(centered.len());
    seed::seed_from(n, centered_ss, mean, num, q_mean, denom, theta1, theta2)
}

// ---- the match of angles

fn is_near(got: f32, want: f32) -> bool
    ensures { result ≡ M.angle_near got want }
{
    floats::abs(got - want) <= 1e-6
}

fn still_near(all: bool, got: f32, want: f32) -> bool
    ensures { result ≡ (all && M.angle_near got want) }
{
    if all {
        return is_near(got, want);
    }
    false
}

fn is_ring_phi(ring_phi: &[f32], expected: &[f32]) -> bool
    requires { length expected.now ≡ length ring_phi.now }
    ensures { result ≡ M.is_ring_phi (length ring_phi.now) ring_phi.now expected.now }
{
    let mut all = true;
    for (got, want) in ring_phi.iter().zip(expected) {
        all = still_near(all, *got, *want);
    }
    all
}

// A count as an f32: the caller's memory is words of that type, and has no other place for it.
// How many tables the words hold: whatever the first word is, at most three.
pub fn held(words: &[f32]) -> usize
    requires { length words.now ≡ W.state_size }
    ensures { (result ≡ W.held_in words.now) × (result ≤ W.most_tables) }
{
    let x = words[0];
    if x == 1.0 {
        return 1;
    }
    if x == 2.0 {
        return 2;
    }
    if x == 3.0 {
        return 3;
    }
    0
}

// The number of the first table whose angles are all within 1e-6 of the ring's.
pub fn first_table(words: &[f32], ring_phi: &[f32]) -> Option<usize>
    requires { (length words.now ≡ W.state_size) × (length ring_phi.now ≡ W.ring_samples) }
    ensures { (result ≡ M.first_table W.ring_samples (W.tables_in words.now) ring_phi.now)
        × P.FoundBelow (W.held_in words.now) result }
{
    let k = held(words);
    // By number: the answer is one.
    for t in 0..k {
        let b = 1 + t * TABLE_SIZE;
        if is_ring_phi(ring_phi, &words[b..b + RING_SAMPLES]) {
            return Some(t);
        }
    }
    None
}

// ---- the search over a table's models, and over the grid's

// A sample v more, which has the factors q in the four models.
fn num_added(m: Models, v: f32, q: [f32; 4]) -> Models
    ensures { result ≡ P.num_added m v q }
{
    let q_mean = m.q_mean;
    let denom = m.denom;
    let old = m.num;
    let num = robust_lanes::plus(old, robust_lanes::times(v, q));
    Models { q_mean, denom, num }
}

// What the four models of a block bring to their scores: each lane adds its samples in their order.
fn block_lanes(block: &[f32], centered: &[f32]) -> Models
    requires { (length block.now ≡ W.block_size) × (length centered.now ≡ W.ring_samples) }
    ensures { result ≡ P.lanes_in W.ring_samples block.now centered.now }
{
    let mut m = Models {
        q_mean: [block[0], block[1], block[2], block[3]],
        denom: [block[4], block[5], block[6], block[7]],
        num: [0.0f32; 4],
    };
    // By place: chunks of the block would come as slices, and go into arrays of four all the same.
    for i in 0..RING_SAMPLES {
        let k = 8 + 4 * i;
        let q = [block[k], block[k + 1], block[k + 2], block[k + 3]];
        m = num_added(m, centered[i], q);
    }
    m
}

// Where a walk over the blocks has their models from, for samples that come as a slice.
pub trait SliceBlocks {
    // Of which centred samples the models are.
    ghost fits: { Self → Row → Type 0 };

    ghost lanes_of: { Self → Row → ℕ → Models };

    ghost seed_of: { Self → Row → Float → Float → Option SeedCandidate };

    // What the four models of the block j bring to their scores; p is the block's first pair.
    fn lanes_of_slice(&self, centered: &[f32], p: Pair, j: usize) -> Models
        requires { fits self.now centered.now × (length centered.now ≤ max_samples) × (j < blocks) × (p ≡ block_pair j) }
        ensures { result ≡ lanes_of self.now centered.now j };

    // The walk finds the seed.
    ghost walked: { (s : Self) (centered : Row) (centered_ss mean : Float) → fits s centered →
        P.walk (count (length centered)) centered_ss mean (lanes_of s centered) ≡ seed_of s centered centered_ss mean };
}

// The grid's rows, one for each sample.
#[derive(Clone, Copy)]
pub struct SliceGrid<'a> {
    pub rows: &'a [GridRow],
}

impl<'a> SliceBlocks for SliceGrid<'a> {
    ghost fits = { λ s centered. length s.rows.now ≡ length centered };

    ghost lanes_of = { λ s centered j. P.grid_models (length centered) s.rows.now centered j };

    ghost seed_of = { λ s centered centered_ss mean. best_of (score_at (length centered) s.rows.now centered centered_ss mean) };

    ghost walked = { λ s centered centered_ss mean f. grid_walked (length centered) s.rows.now centered centered_ss mean refl };

    #[inline(always)]
    fn lanes_of_slice(&self, centered: &[f32], p: Pair, _j: usize) -> Models {
        let n = floats::count_f32(centered.len());
        robust_lanes::lane_models(robust_lanes::lane_sums(self.rows, centered, p.a, p.b), n)
    }
}

// A table's words.
#[derive(Clone, Copy)]
pub struct Stored<'a> {
    pub table: &'a [f32],
    pub ghost sized: { length table.now ≡ W.table_size },
}

impl<'a> SliceBlocks for Stored<'a> {
    ghost fits = { λ s centered. length centered ≡ W.ring_samples };

    ghost lanes_of = { λ s centered j. P.lanes_in W.ring_samples (W.block_part s.table.now j) centered };

    ghost seed_of = { λ s centered centered_ss mean. M.best_cached W.ring_samples centered centered_ss mean (W.models_in s.table.now) };

    ghost walked = { λ s centered centered_ss mean l. table_fits s.table.now centered centered_ss mean l };

    fn lanes_of_slice(&self, centered: &[f32], _p: Pair, j: usize) -> Models {
        let table = self.table;
        let s = RING_SAMPLES + j * BLOCK_SIZE;
        block_lanes(&table[s..s + BLOCK_SIZE], centered)
    }
}

// The samples, their sum of squares and the mean go apart: the function lines have them so.
// The seed of least residual over all allowed pairs, the earlier on a tie. It is compiled into its caller, whose array tells
// the number of samples.
#[inline(always)]
pub fn best_seed_of_slice<B: SliceBlocks>(
    models: &B,
    centered: &[f32],
    centered_ss: f32,
    mean: f32,
) -> Option<SeedCandidate>
    requires { B.fits models.now centered.now × (length centered.now ≤ max_samples) }
    ensures { result ≡ B.seed_of models.now centered.now centered_ss mean }
{
    let n = floats::count_f32(centered.len());
    let mut best = robust_lanes::none_yet();
    let mut p = robust_grid::first_block();
    for j in 0..robust_grid::BLOCKS {
        let m = models.lanes_of_slice(centered, p, j);
        best = robust_grid::lanes_tried(best, m, n, centered_ss, mean, p);
        p = robust_grid::next_block(p);
    }
    best.top
}

// ---- the same for samples that come as an array, whose number is known when this is compiled

// Where a walk over the blocks has their models from, for samples that come as an array.
pub trait Blocks<const N: usize> {
    ghost lanes_of: { Self → Row → ℕ → Models };

    ghost seed_of: { Self → Row → Float → Float → Option SeedCandidate };

    // What the four models of the block j bring to their scores; p is the block's first pair.
    fn lanes(&self, centered: &[f32; N], p: Pair, j: usize) -> Models
        requires { (N ≤ max_samples) × (j < blocks) × (p ≡ block_pair j) }
        ensures { result ≡ lanes_of self.now centered.now j };

    // The walk finds the seed.
    ghost walked: { (s : Self) (centered : Row) (centered_ss mean : Float) → length centered ≡ N →
        P.walk (count N) centered_ss mean (lanes_of s centered) ≡ seed_of s centered centered_ss mean };
}

// The grid's rows, one for each sample.
#[derive(Clone, Copy)]
pub struct Grid<'a, const N: usize> {
    pub rows: &'a [GridRow; N],
}

impl<'a, const N: usize> Blocks<N> for Grid<'a, N> {
    ghost lanes_of = { λ s centered j. P.grid_models N s.rows.now centered j };

    ghost seed_of = { λ s centered centered_ss mean. best_of (score_at N s.rows.now centered centered_ss mean) };

    ghost walked = { λ s centered centered_ss mean l. grid_walked N s.rows.now centered centered_ss mean l };

    fn lanes(&self, centered: &[f32; N], p: Pair, j: usize) -> Models {
        let rows = self.rows;
        SliceGrid { rows }.lanes_of_slice(centered, p, j)
    }
}

impl<'a> Blocks<RING_SAMPLES> for Stored<'a> {
    ghost lanes_of = { λ s centered j. P.lanes_in W.ring_samples (W.block_part s.table.now j) centered };

    ghost seed_of = { λ s centered centered_ss mean. M.best_cached W.ring_samples centered centered_ss mean (W.models_in s.table.now) };

    ghost walked = { λ s centered centered_ss mean l. table_walked s.table.now centered centered_ss mean };

    fn lanes(&self, centered: &[f32; RING_SAMPLES], p: Pair, j: usize) -> Models {
        self.lanes_of_slice(centered, p, j)
    }
}

// Models of an array's samples, as models of a slice's.
#[derive(Drop)]
struct Sliced<'a, const N: usize, B> {
    models: &'a B,
}

impl<'a, const N: usize, B: Blocks<N>> SliceBlocks for Sliced<'a, N, B> {
    ghost fits = { λ s centered. length centered ≡ N };

    ghost lanes_of = { λ s centered j. B.lanes_of s.models.now centered j };

    ghost seed_of = { λ s centered centered_ss mean. B.seed_of s.models.now centered centered_ss mean };

    ghost walked = { λ s centered centered_ss mean l. rw l (B.walked s.models.now centered centered_ss mean l) };

    fn lanes_of_slice(&self, centered: &[f32], p: Pair, j: usize) -> Models {
        let array = <&[f32; N]>::try_from(centered).unwrap();
        self.models.lanes(array, p, j)
    }
}

// The seed of least residual over all allowed pairs, the earlier on a tie.
pub fn best_seed<const N: usize, B: Blocks<N>>(
    models: &B,
    centered: &[f32; N],
    centered_ss: f32,
    mean: f32,
) -> Option<SeedCandidate>
    requires { N ≤ max_samples }
    ensures { result ≡ B.seed_of models.now centered.now centered_ss mean }
{
    best_seed_of_slice(&Sliced::<N, B> { models }, centered, centered_ss, mean)
}

// ---- the building of a table

type GridRows = [GridRow; RING_SAMPLES];

// a and b apart, no Pair: a lane's b lies behind its block's, and Pair is a block's first.
fn q_at(h: &GridRows, a: usize, b: usize, i: usize) -> f32
    requires { (a < 23) × (b < 23) × (i < W.ring_samples) }
    ensures { result ≡ P.q_at h.now a b i }
{
    h[i][a] * h[i][b]
}

fn q_sums(h: &GridRows, a: usize, b: usize) -> QSums
    requires { (a < 23) × (b < 23) }
    ensures { result ≡ P.q_sums_at W.ring_samples h.now a b }
{
    let mut s = QSums {
        q_sum: 0.0,
        q2_sum: 0.0,
    };
    for row in h {
        let q = row[a] * row[b];
        s.q_sum += q;
        s.q2_sum += q * q;
    }
    s
}

// The row r of the model of a and b: its sums are made anew for each word, since tables are stored once.
fn lane_word(h: &GridRows, a: usize, b: usize, r: usize) -> f32
    requires { (a < 23) × (b < 23) × (r < 18) }
    ensures { result ≡ W.lane_word (P.model_from h.now a b) r }
{
    let s = q_sums(h, a, b);
    let q_mean = s.q_sum / 16.0;
    if r == 0 {
        return q_mean;
    }
    if r == 1 {
        return s.q2_sum - s.q_sum * q_mean;
    }
    q_at(h, a, b, r - 2) - q_mean
}

// A word of a block: 0 in a lane that has no pair.
fn block_word(h: &GridRows, p: Pair, w: usize) -> f32
    requires { (p.a < 21) × (p.b < 23) × (w < W.block_size) }
    ensures { result ≡ W.block_word (P.model_from h.now) p w }
{
    let k = w % 4;
    if robust_grid::is_pair(p, k) {
        return lane_word(h, p.a, p.b + k, w / 4);
    }
    0.0
}

fn fill_block(h: &GridRows, p: Pair, block: &mut [f32])
    requires { (p.a < 21) × (p.b < 23) × (length block.old ≡ W.block_size) }
    ensures { block.new ≡ W.block_of (P.model_from h.now) p }
{
    // By place: a word is made of its number; `enumerate` would count the same.
    for w in 0..BLOCK_SIZE {
        block[w] = block_word(h, p, w);
    }
}

// Lengths are asked of slices, here and below: a table is cut out of a caller's words as a slice.
fn put_angles(angles: &[f32], table: &mut [f32])
    requires { (length angles.now ≡ W.ring_samples) × (length table.old ≡ W.table_size) }
    ensures { table.new ≡ angles.now ++ drop W.ring_samples table.old }
{
    table[..RING_SAMPLES].copy_from_slice(angles);
}

// The angles, then block by block.
fn fill_table(angles: &[f32], h: &GridRows, table: &mut [f32])
    requires { (length angles.now ≡ W.ring_samples) × (length table.old ≡ W.table_size) }
    ensures { table.new ≡ W.table_words angles.now (P.model_from h.now) }
{
    put_angles(angles, table);
    let mut p = robust_grid::first_block();
    // By place: of what `chunks_exact_mut` lends a proof knows the length alone.
    for j in 0..robust_grid::BLOCKS {
        let s = RING_SAMPLES + j * BLOCK_SIZE;
        fill_block(h, p, &mut table[s..s + BLOCK_SIZE]);
        p = robust_grid::next_block(p);
    }
}

// The table of these angles. The grid's rows are on this call's stack, and are of no use afterwards.
fn build_table(angles: &[f32], table: &mut [f32])
    requires { (length angles.now ≡ W.ring_samples) × (length table.old ≡ W.table_size) }
    ensures { table.new ≡ W.table_words angles.now (M.model_at W.ring_samples angles.now) }
{
    let mut turned = [0.0f32; RING_SAMPLES];
    let mut sphi = [0.0f32; RING_SAMPLES];
    let mut cphi = [0.0f32; RING_SAMPLES];
    solver::prepare(angles, &mut turned, &mut sphi, &mut cphi);
    let mut h = [[0.0f32; robust_lanes::ROW_PLACES]; RING_SAMPLES];
    robust_grid::fill_grid(&sphi, &cphi, &mut h);
    fill_table(angles, &h, table);
}

// A table more, behind those that are held.
pub fn store(words: &mut [f32], angles: &[f32])
    requires { (length words.old ≡ W.state_size) × (length angles.now ≡ W.ring_samples) × (W.held_in words.old < W.most_tables) }
    ensures { words.new ≡ W.stored_in words.old angles.now }
{
    let t = held(words);
    let b = 1 + t * TABLE_SIZE;
    build_table(angles, &mut words[b..b + TABLE_SIZE]);
    words[0] = floats::count_f32(t + 1);
}

// No table.
pub fn fresh(words: &mut [f32])
    requires { length words.old ≡ W.state_size }
    ensures { words.new ≡ W.fresh_in words.old }
{
    words[0] = 0.0;
}

#[cfg(test)]
mod tests;

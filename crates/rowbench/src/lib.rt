// Loops over the elementary functions, exported for the bench. Each ends with the shortest of its
// slices, so that no caller owes a proof.
#![tactic(auto)]

use elementary::{atan2, exp_neg, sin_cos_near, tanh};
use roots::sqrt;

#[unsafe(no_mangle)]
pub extern "C" fn rb_tanh_row(xs: &[f32], ys: &[f32], row: &mut [f32], s: f32, c: f32, w: f32) {
    for (r, (x, y)) in row.iter_mut().zip(xs.iter().zip(ys)) {
        *r = tanh((-s * *x + c * *y) / w);
    }
}

#[unsafe(no_mangle)]
pub extern "C" fn rb_exp_row(xs: &[f32], row: &mut [f32]) {
    for (r, x) in row.iter_mut().zip(xs) {
        *r = exp_neg(*x);
    }
}

#[unsafe(no_mangle)]
pub extern "C" fn rb_sin_cos(xs: &[f32], ss: &mut [f32], cs: &mut [f32]) {
    for (x, (s, c)) in xs.iter().zip(ss.iter_mut().zip(cs)) {
        let both = sin_cos_near(*x);
        *s = both.s;
        *c = both.c;
    }
}

#[unsafe(no_mangle)]
pub extern "C" fn rb_atan2(ys: &[f32], xs: &[f32], out: &mut [f32]) {
    for (o, (y, x)) in out.iter_mut().zip(ys.iter().zip(xs)) {
        *o = atan2(*y, *x);
    }
}

#[unsafe(no_mangle)]
pub extern "C" fn rb_sqrt(xs: &[f32], row: &mut [f32]) {
    for (r, x) in row.iter_mut().zip(xs) {
        *r = sqrt(*x);
    }
}

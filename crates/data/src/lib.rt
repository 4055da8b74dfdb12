// The pixels of a disk, as the whole disk search has them: disk_sector/data.rs, DiskData.
#![tactic(auto)]

ghost use Rattle.std.specs.Prelude.{◌≡◌};
ghost use Rattle.data.specs.Data.{DiskSized, max_tanh_pixels};

// The most pixels that a kept row of tanh has room for; rows stand that far apart.
pub const MAX_TANH_PIXELS: usize = 320;

// The constant of the code is that of the definitions.
pub fn max_tanh_pixels() -> usize
    ensures { result ≡ max_tanh_pixels }
{
    MAX_TANH_PIXELS
}

// The pixels of a disk: their places, centred values and gradients, each a caller's slice, and the
// sum of the squared values.
#[derive(Clone, Copy)]
pub struct Disk<'a> {
    pub val_energy: f32,
    pub xs: &'a [f32],
    pub ys: &'a [f32],
    pub vals_centered: &'a [f32],
    pub grad_angles: &'a [f32],
    pub grad_weights: &'a [f32],
    pub ghost sized: { DiskSized xs.now ys.now vals_centered.now grad_angles.now grad_weights.now },
}

// A frame's shape: what a line's type, length and characters say of it, before any value is read.
// The order of the refusals is that of docs/RULES.md, Frame lines, and stands in specs/Shapes.antt.
#![tactic(auto)]

ghost use Rattle.std.specs.Prelude.{◌≡◌, ◌≤◌, ◌<◌, length};
ghost use Rattle.shapes.specs.Shapes as S;

// A ring's line has its type, and two words for each sample, in characters.
const RING_HEAD: usize = 2;

const SAMPLE: usize = 16;

// A disk's line before its pixels, and for each pixel, in characters.
pub const DISK_HEAD: usize = 30;

pub const PIXEL: usize = 40;

// The longest frame line: a disk of the most pixels.
pub const LIMIT: usize = DISK_HEAD + PIXEL * data::MAX_TANH_PIXELS;

// The two rings: 16 samples, of type 01, and 24, of type 03.
#[derive(Clone, Copy, PartialEq, Eq)]
pub enum RingKind {
    Sixteen,
    TwentyFour,
}

impl RingKind {
    pub fn samples(self) -> usize
        ensures { (result ≤ 24) × (result ≡ S.samples_of self) }
    {
        match self {
            RingKind::Sixteen => 16,
            RingKind::TwentyFour => 24,
        }
    }

    // A frame is answered by its type plus 80.
    pub fn answer_type(self) -> u8
        ensures { (result ≤ 131) × (result ≡ S.answer_type self) }
    {
        match self {
            RingKind::Sixteen => 129,
            RingKind::TwentyFour => 131,
        }
    }
}

// The frames that have fits.
#[derive(Clone, Copy)]
pub enum Kind {
    Ring(RingKind),
    Disk,
}

// What makes a line malformed: it is too long; it has a character that is no digit; it is too short for
// a type; the length that its type, or its count of pixels, asks for.
#[derive(Clone, Copy)]
pub enum Fault {
    TooLong,
    Foreign,
    Short,
    RingLength(RingKind),
    DiskShort,
    DiskLength(u32),
}

// A ring, a disk of so many pixels, a disk whose count is refused; a line of another type, which is
// malformed too; or one that is malformed for a fault.
#[derive(Clone, Copy)]
pub enum Shape {
    Ring(RingKind),
    Disk(u32),
    BadCount(u32),
    OtherType(u32),
    Malformed(Fault),
}

#[tactic(auto, unfolding(crate::specs::Shapes::ring_shape))]
fn ring_shape(line: &[u8], kind: RingKind) -> Shape
    ensures { (result ≡ S.ring_shape line.now kind) × S.ShapeSized (length line.now) result }
{
    if line.len() == RING_HEAD + SAMPLE * kind.samples() {
        return Shape::Ring(kind);
    }
    Shape::Malformed(Fault::RingLength(kind))
}

#[tactic(auto, unfolding(crate::specs::Shapes::counted_shape))]
fn counted_shape(line: &[u8], n: u32) -> Shape
    requires { n < 65536 }
    ensures { (result ≡ S.counted_shape (length line.now) n) × S.ShapeSized (length line.now) result }
{
    let pixels = n as usize;
    if pixels == 0 {
        return Shape::BadCount(n);
    }
    if pixels > data::MAX_TANH_PIXELS {
        return Shape::BadCount(n);
    }
    if line.len() == DISK_HEAD + PIXEL * pixels {
        return Shape::Disk(n);
    }
    Shape::Malformed(Fault::DiskLength(n))
}

#[tactic(auto, unfolding(crate::specs::Shapes::disk_shape))]
fn disk_shape(line: &[u8]) -> Shape
    ensures { (result ≡ S.disk_shape line.now) × S.ShapeSized (length line.now) result }
{
    if line.len() < DISK_HEAD {
        return Shape::Malformed(Fault::DiskShort);
    }
    let n = hexadecimal::byte_at(line, 2) * 256 + hexadecimal::byte_at(line, 4);
    counted_shape(line, n)
}

#[tactic(auto, unfolding(crate::specs::Shapes::typed_shape))]
fn typed_shape(line: &[u8]) -> Shape
    requires { 2 ≤ length line.now }
    ensures { (result ≡ S.typed_shape line.now) × S.ShapeSized (length line.now) result }
{
    match hexadecimal::byte_at(line, 0) {
        1 => ring_shape(line, RingKind::Sixteen),
        3 => ring_shape(line, RingKind::TwentyFour),
        2 => disk_shape(line),
        kind => Shape::OtherType(kind),
    }
}

#[tactic(auto, unfolding(crate::specs::Shapes::shape_of))]
pub fn shape_of(line: &[u8]) -> Shape
    ensures { (result ≡ S.shape_of line.now) × S.ShapeSized (length line.now) result }
{
    let n = line.len();
    if n > LIMIT {
        return Shape::Malformed(Fault::TooLong);
    }
    if !hexadecimal::all_hex(line) {
        return Shape::Malformed(Fault::Foreign);
    }
    if n < 2 {
        return Shape::Malformed(Fault::Short);
    }
    typed_shape(line)
}

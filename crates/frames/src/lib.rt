// Frame lines: a line of text in, the answer's text into a lent buffer, and the number back.
#![tactic(auto)]

ghost use Rattle.std.specs.Prelude.{◌≡◌, ◌+◌, ◌*◌, ◌≤◌, length};
ghost use Rattle.data.specs.Data.{max_tanh_pixels};
ghost use Rattle.hexadecimal.specs.Hex.{put, values_of, Written};
ghost use Rattle.shapes.specs.Shapes.{ring_length, samples_of};
ghost use Rattle.checked.specs.Checked.{checked_disk, fit_counts};
ghost use Rattle.checked.specs.Parts.{RingSize};
ghost use Rattle.frames.specs.Frames as F;
ghost use Rattle.frames.specs.RunsLaws.{disk_of_runs};

use checked::{Measured, Refusal};
use robust_choice::RingFit;
use shapes::{RingKind, Shape};

// What a frame is answered: the fit of its ring or of its disk.
#[derive(Clone, Copy)]
pub enum FrameFit {
    Ring(RingKind, RingFit),
    Disk(Measured),
}

// Why a line has no fit: it is no frame, or its frame is refused.
#[derive(Clone, Copy, PartialEq, Eq)]
pub enum LineRefusal {
    Malformed,
    Ring(RingKind, Refusal),
    Disk(Refusal),
}

impl LineRefusal {
    // The type of its answer.
    pub fn answer_type(self) -> u8
        ensures { result ≡ F.refused_type self }
    {
        match self {
            LineRefusal::Malformed => 255,
            LineRefusal::Ring(kind, _) => kind.answer_type(),
            LineRefusal::Disk(_) => 130,
        }
    }

    pub fn number(self) -> u8
        ensures { result ≡ F.refused_number self }
    {
        match self {
            LineRefusal::Malformed => 5,
            LineRefusal::Ring(_, e) | LineRefusal::Disk(e) => e.number(),
        }
    }

    pub fn place(self) -> u16
        ensures { result ≡ F.refused_place self }
    {
        match self {
            LineRefusal::Malformed => 0,
            LineRefusal::Ring(_, e) | LineRefusal::Disk(e) => e.place(),
        }
    }
}

// N values of a ring's line, from a place on.
fn ring_values<const N: usize>(line: &[u8], at: usize) -> [f32; N]
    requires { RingSize N × (at + 8 * N ≤ length line.now) }
    ensures { result ≡ values_of line.now at N }
{
    let mut xs = [0.0f32; N];
    hexadecimal::values(line, at, &mut xs);
    xs
}

// The samples and the angles stand behind the type. Each ring has its own entry, which asks nothing.
fn typed_ring(line: &[u8], kind: RingKind) -> Result<FrameFit, LineRefusal>
    requires { length line.now ≡ ring_length (samples_of kind) }
    ensures { result ≡ F.ring_answer line.now kind }
{
    let fit = match kind {
        RingKind::Sixteen => {
            let samples = ring_values::<16>(line, 2);
            let angles = ring_values::<16>(line, 130);
            checked::fit_ring(&samples, &angles)
        }
        RingKind::TwentyFour => {
            let samples = ring_values::<24>(line, 2);
            let angles = ring_values::<24>(line, 194);
            checked::fit_ring24(&samples, &angles)
        }
    };
    fit.map(|r| FrameFit::Ring(kind, r))
        .map_err(|e| LineRefusal::Ring(kind, e))
}

// n goes beside the values, and is asked to be at most 320: it is where each run ends.
// The answer to a disk's values: five runs of n in one slice.
fn runs_fit(energy: f32, base0: f32, base1: f32, vs: &[f32], n: usize) -> Result<Measured, Refusal>
    requires { (n ≤ max_tanh_pixels) × (length vs.now ≡ 5 * n) }
    ensures { result ≡ checked_disk (disk_of_runs energy vs.now n) base0 base1 }
{
    checked::fit_disk(
        energy,
        base0,
        base1,
        &vs[0..n],
        &vs[n..2 * n],
        &vs[2 * n..3 * n],
        &vs[3 * n..4 * n],
        &vs[4 * n..5 * n],
    )
}

// The values of a disk whose line has the right length, read into a lent row of 5 n places.
fn runs_line(line: &[u8], n: usize, vs: &mut [f32]) -> Result<Measured, Refusal>
    requires { (n ≤ max_tanh_pixels) × (length line.now ≡ 30 + 40 * n) × (length vs.old ≡ 5 * n) }
    ensures { result ≡ F.disk_fit_of line.now n }
{
    let energy = hexadecimal::value_at(line, 6);
    let base0 = hexadecimal::value_at(line, 14);
    let base1 = hexadecimal::value_at(line, 22);
    hexadecimal::values(line, 30, vs);
    runs_fit(energy, base0, base1, vs, n)
}

// The same, with the row on this call's stack. Not put into its caller: else each line, a malformed one too, would touch every
// page of the search's room.
#[inline(never)]
fn disk_line(line: &[u8], n: usize) -> Result<FrameFit, LineRefusal>
    requires { (n ≤ max_tanh_pixels) × (length line.now ≡ 30 + 40 * n) }
    ensures { result ≡ F.disk_answer line.now n }
{
    let mut vs = [0.0f32; 5 * data::MAX_TANH_PIXELS];
    runs_line(line, n, &mut vs[0..5 * n])
        .map(FrameFit::Disk)
        .map_err(LineRefusal::Disk)
}

pub fn answer_to(line: &[u8]) -> Result<FrameFit, LineRefusal>
    ensures { result ≡ F.answer_of line.now }
{
    match shapes::shape_of(line) {
        Shape::Ring(kind) => typed_ring(line, kind),
        Shape::Disk(n) => disk_line(line, n as usize),
        Shape::BadCount(_) => Err(LineRefusal::Disk(Refusal::PixelCount)),
        Shape::OtherType(_) | Shape::Malformed(_) => Err(LineRefusal::Malformed),
    }
}

fn counts_word(r: RingFit) -> u32
    ensures { result ≡ F.counts_word (fit_counts r) }
{
    let s = r.standing;
    u32::from_be_bytes([
        (r.starts % 256) as u8,
        (r.first % 256) as u8,
        (r.second % 256) as u8,
        u8::from(s.known),
    ])
}

// The words of a ring's fit, after its first four digits.
fn ring_words(r: RingFit) -> [u32; 7]
    ensures { (result ≡ F.ring_words r) × (7 ≡ length result) }
{
    let f = r.fit;
    [
        floats::to_bits(f.amp),
        floats::to_bits(f.theta1),
        floats::to_bits(f.theta2),
        floats::to_bits(f.fit_std_error_theta1),
        floats::to_bits(f.fit_std_error_theta2),
        floats::to_bits(f.rms),
        counts_word(r),
    ]
}

// The room is asked here and below: as an array of 98 each writer would take a part of it at a place all the same.
fn write_ring(kind: RingKind, r: RingFit, out: &mut [u8], at: usize)
    requires { at + 98 ≤ length out.old }
    ensures { out.new ≡ put out.old at (F.ring_text kind r) }
{
    hexadecimal::put_count(out, at, u32::from(kind.answer_type()) * 256);
    hexadecimal::put_words(out, at + 4, &ring_words(r));
}

// The words of a disk's fit, after its first four digits.
fn disk_words(m: Measured) -> [u32; 11]
    ensures { (result ≡ F.disk_words m) × (11 ≡ length result) }
{
    let f = m.fit;
    let e = m.estimate;
    let errors = e.errors;
    [
        floats::to_bits(f.theta1),
        floats::to_bits(f.theta2),
        floats::to_bits(f.width),
        floats::to_bits(f.amp),
        floats::to_bits(f.rms),
        floats::to_bits(f.rel_rms),
        floats::to_bits(f.corr),
        floats::to_bits(f.edge_score),
        floats::to_bits(f.objective),
        floats::to_bits(errors.error1),
        floats::to_bits(errors.error2),
    ]
}

fn write_disk(m: Measured, out: &mut [u8], at: usize)
    requires { at + 98 ≤ length out.old }
    ensures { out.new ≡ put out.old at (F.disk_text m) }
{
    let e = m.estimate;
    let s = e.standing;
    hexadecimal::put_count(out, at, 0x8200);
    hexadecimal::put_words(out, at + 4, &disk_words(m));
    hexadecimal::put_count(out, at + 92, (m.trials % 65536) as u32);
    hexadecimal::put_byte(out, at + 96, u32::from(s.known));
}

fn write_refusal(e: LineRefusal, out: &mut [u8], at: usize)
    requires { at + 98 ≤ length out.old }
    ensures { out.new ≡ put out.old at (F.refusal_text (F.refused_type e) (F.refused_number e) (F.refused_place e)) }
{
    hexadecimal::put_byte(out, at, u32::from(e.answer_type()));
    hexadecimal::put_byte(out, at + 2, u32::from(e.number()));
    hexadecimal::put_count(out, at + 4, u32::from(e.place()));
}

pub fn write_answer(a: Result<FrameFit, LineRefusal>, out: &mut [u8], at: usize) -> u32
    requires { at + 98 ≤ length out.old }
    ensures { (result ≡ F.number_of a) × (out.new ≡ put out.old at (F.text_of a)) }
{
    match a {
        Ok(FrameFit::Ring(kind, r)) => write_ring(kind, r, out, at),
        Ok(FrameFit::Disk(m)) => write_disk(m, out, at),
        Err(e) => {
            write_refusal(e, out, at);
            return u32::from(e.number());
        }
    }
    0
}

// The line call. A buffer under 98 bytes keeps every byte.
pub fn answer_line(line: &[u8], out: &mut [u8]) -> u32
    ensures { ◌≡◌ {A = F.Reply} (record { number = result; buffer = out.new }) (F.reply_of line.now out.old) }
{
    if out.len() < 98 {
        return u32::from(Refusal::WrongLength.number());
    }
    write_answer(answer_to(line), out, 0)
}

// A line whose start was dropped is malformed. As an Option of a line the `if` would only move to the caller.
fn kept_answer(skip: bool, line: &[u8]) -> Result<FrameFit, LineRefusal>
    ensures { result ≡ F.kept_answer skip line.now }
{
    if skip {
        return Err(LineRefusal::Malformed);
    }
    answer_to(line)
}

fn text_len(a: Result<FrameFit, LineRefusal>) -> usize
    ensures { (result ≤ 98) × (result ≡ length (F.text_of a)) }
{
    match a {
        Ok(FrameFit::Ring(_, _)) => 60,
        Ok(FrameFit::Disk(_)) => 98,
        Err(_) => 8,
    }
}

// The answer to a line and a line feed, at a place of the output; the place after them.
pub fn append(skip: bool, line: &[u8], out: &mut [u8], at: usize) -> usize
    requires { at + 99 ≤ length out.old }
    ensures { (result ≤ at + 99) × Written out.old at (F.line_text skip line.now) out.new result }
{
    let a = kept_answer(skip, line);
    let n = text_len(a);
    write_answer(a, out, at);
    let e = at + n;
    out[e] = 10;
    e + 1
}

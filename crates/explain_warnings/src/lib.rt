// What in an answer is not to be taken at face value: the values of an answer's line, and the warnings
// that they call for, in sentences. All of it equals its definition in specs/Warnings.antt.
#![tactic(auto)]

ghost use Rattle.std.specs.Prelude.{◌≡◌, ◌+◌, ◌≤◌, length};
ghost use Rattle.explain_words.specs.Tell.{Said, flags_of};
ghost use Rattle.shapes.specs.Shapes.{fit_length};
ghost use Rattle.explain_warnings.specs.Warnings as W;

use explain_words::Page;
use shapes::Kind;

// As the line has them: where there was no second start, its updates are 0.
// What a ring's line says beside its fit: its starts, and the updates of the first and of the second.
#[derive(Clone, Copy)]
pub struct Starts {
    pub number: u32,
    pub first: u32,
    pub second: u32,
}

// What a disk's line says beside its fit.
#[derive(Clone, Copy)]
pub struct Search {
    pub width: f32,
    pub rel_rms: f32,
    pub corr: f32,
    pub edge_score: f32,
    pub objective: f32,
    pub trials: u32,
}

#[derive(Clone, Copy)]
pub enum Beside {
    Ring(Starts),
    Disk(Search),
}

// As the line has it: errors stand there also where they are not known, so they are no Option.
// What a line's answer says.
#[derive(Clone, Copy)]
pub struct Reading {
    pub amp: f32,
    pub theta1: f32,
    pub theta2: f32,
    pub error1: f32,
    pub error2: f32,
    pub rms: f32,
    pub known: bool,
    pub beside: Beside,
}

// Two readers, of a ring's line and of a disk's: most values stand elsewhere, so a common one would be two lists of places.
fn ring_reading(line: &[u8]) -> Reading
    requires { 60 ≤ length line.now }
    ensures { result ≡ W.ring_reading line.now }
{
    Reading {
        amp: hexadecimal::value_at(line, 4),
        theta1: hexadecimal::value_at(line, 12),
        theta2: hexadecimal::value_at(line, 20),
        error1: hexadecimal::value_at(line, 28),
        error2: hexadecimal::value_at(line, 36),
        rms: hexadecimal::value_at(line, 44),
        known: hexadecimal::byte_at(line, 58) != 0,
        beside: Beside::Ring(Starts {
            number: hexadecimal::byte_at(line, 52),
            first: hexadecimal::byte_at(line, 54),
            second: hexadecimal::byte_at(line, 56),
        }),
    }
}

fn disk_reading(line: &[u8]) -> Reading
    requires { 98 ≤ length line.now }
    ensures { result ≡ W.disk_reading line.now }
{
    Reading {
        theta1: hexadecimal::value_at(line, 4),
        theta2: hexadecimal::value_at(line, 12),
        amp: hexadecimal::value_at(line, 28),
        rms: hexadecimal::value_at(line, 36),
        error1: hexadecimal::value_at(line, 76),
        error2: hexadecimal::value_at(line, 84),
        known: hexadecimal::byte_at(line, 96) != 0,
        beside: Beside::Disk(Search {
            width: hexadecimal::value_at(line, 20),
            rel_rms: hexadecimal::value_at(line, 44),
            corr: hexadecimal::value_at(line, 52),
            edge_score: hexadecimal::value_at(line, 60),
            objective: hexadecimal::value_at(line, 68),
            trials: hexadecimal::byte_at(line, 92) * 256 + hexadecimal::byte_at(line, 94),
        }),
    }
}

pub fn read(line: &[u8], kind: Kind) -> Reading
    requires { fit_length kind ≤ length line.now }
    ensures { result ≡ W.reading_of line.now kind }
{
    match kind {
        Kind::Ring(_) => ring_reading(line),
        Kind::Disk => disk_reading(line),
    }
}

fn is_infinite(x: f32) -> bool
    ensures { result ≡ W.is_infinite x }
{
    if x == x {
        return !floats::is_finite(x);
    }
    false
}

// robust.rs: relative_rms against ROBUST_REL_RMS_TRIGGER, both in f32.
fn is_large(rms: f32, amp: f32) -> bool
    ensures { result ≡ W.is_large rms amp }
{
    let least = floats::max(rms, 0.0) / floats::max(amp, 1.0);
    floats::is_finite(rms) & (least >= 0.12)
}

// Whether a start of a ring made no update.
fn is_still(beside: Beside) -> bool
    ensures { result ≡ W.is_still beside }
{
    match beside {
        Beside::Ring(s) => (s.first == 0) | (s.second == 0),
        Beside::Disk(_) => false,
    }
}

fn is_degenerate(r: Reading) -> bool
    ensures { result ≡ W.is_degenerate r }
{
    let flat = (r.amp == 0.0) & (r.theta1 == 0.0) & (r.theta2 == floats::HALF_PI);
    is_still(r.beside) & flat
}

fn is_wild(x: f32) -> bool
    ensures { result ≡ W.is_wild x }
{
    !floats::is_finite(x)
}

// Of a disk whether the correlation is 0 or out of range, and which of its values is not finite; none of
// them of a ring.
fn disk_flags(beside: Beside) -> [bool; 7]
    ensures { (result ≡ W.disk_flags beside) × (7 ≡ length result) }
{
    match beside {
        Beside::Ring(_) => [false; 7],
        Beside::Disk(d) => [
            d.corr == 0.0,
            (d.corr < 0.0) | (d.corr > 1.0),
            is_wild(d.width),
            is_wild(d.rel_rms),
            is_wild(d.corr),
            is_wild(d.edge_score),
            is_wild(d.objective),
        ],
    }
}

// Whether each warning is called for, in the order of the sentences.
fn flags(r: Reading) -> [bool; 23]
    ensures { (result ≡ flags_of (W.warnings_of r)) × (23 ≡ length result) }
{
    let [
        unexplained,
        outside,
        width,
        rel_rms,
        corr,
        edge_score,
        objective,
    ] = disk_flags(r.beside);
    [
        r.rms == 0.0,
        is_infinite(r.rms),
        r.rms != r.rms,
        is_large(r.rms, r.amp),
        unexplained,
        outside,
        !r.known,
        r.known & (r.error1 == floats::PI),
        r.known & (r.error2 == floats::PI),
        r.known & (r.error1 == 0.0),
        r.known & (r.error2 == 0.0),
        r.amp == 0.0,
        is_wild(r.amp),
        is_wild(r.theta1),
        is_wild(r.theta2),
        is_wild(r.error1),
        is_wild(r.error2),
        width,
        rel_rms,
        corr,
        edge_score,
        objective,
        is_degenerate(r),
    ]
}

// The warnings that an answer calls for. A bar ends a sentence.
pub fn warnings(page: &mut Page, r: Reading)
    requires { page.old.at + 33936 ≤ length page.old.text.now }
    ensures { (page.new.at ≤ page.old.at + 33936) × Said page.old page.new (W.warnings_text r) }
{
    let told = flags(r);
    page.tell(
        b"  warning: the residual is 0: no noise at all, or nothing to fit
|  warning: the residual is infinite: a sum overflowed
|  warning: the residual is NaN: it says nothing of the fit
|  warning: the residual is at least 12 % of the amplitude, or of 1 where that is more
|  warning: the correlation is 0: the fit explains nothing of the disk
|  warning: the correlation is not between 0 and 1
|  warning: the errors are not known: whatever stands in their place, PI or 0 too, is no estimate
|  warning: the first error is estimated, and is PI or more: that axis is not determined
|  warning: the second error is estimated, and is PI or more: that axis is not determined
|  warning: the first error is estimated, and is 0: no value deviates, or it was lost in rounding
|  warning: the second error is estimated, and is 0: no value deviates, or it was lost in rounding
|  warning: the amplitude is 0: there is no contrast to fit
|  warning: the amplitude is not finite
|  warning: the first axis is not finite
|  warning: the second axis is not finite
|  warning: the first error is not finite
|  warning: the second error is not finite
|  warning: the width is not finite
|  warning: the relative residual is not finite
|  warning: the correlation is not finite
|  warning: the edge score is not finite
|  warning: the objective is not finite
|  warning: the samples have no contrast: axes and errors are placeholders
|",
        &told,
        &[],
    );
}

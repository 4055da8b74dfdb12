// The library for C and Rust callers: libjengubool.a. Each function is one call of a proved one;
// include/jengubool.h declares them, with what each promises.
#![tactic(auto)]

ghost use Rattle.std.specs.Prelude.{◌≡◌, ◌≤◌, [], map, length, take};
ghost use Rattle.std.specs.Float.{binary32};
ghost use Rattle.data.specs.Data.{lent_disk};
ghost use Rattle.checked.specs.Checked.{checked_ring, record_values, fit_counts, measured_values, measured_counts};
ghost use Rattle.shapes.specs.Shapes.{samples_of};
ghost use Rattle.checked_tables.specs.Tables.{refusal_code, table_refusal, words_with};
ghost use Rattle.seed_models.specs.Words as W;
ghost use Rattle.frames.specs.Frames as F;
ghost use Rattle.jengubool.specs.Calls as J;
ghost use Rattle.floats.specs.Library as L;
ghost use Rattle.elementary.specs.Elementary as E;

use checked::{Measured, Refusal};
use robust_choice::RingFit;
use shapes::RingKind;
use solver_record::TwoAxisFit;

#[unsafe(no_mangle)]
pub extern "C" fn jb_sin(x: f32) -> f32
    ensures { result ≡ E.sin x }
{
    elementary::sin(x)
}

#[unsafe(no_mangle)]
pub extern "C" fn jb_cos(x: f32) -> f32
    ensures { result ≡ E.cos x }
{
    elementary::cos(x)
}

#[unsafe(no_mangle)]
pub extern "C" fn jb_tanh(x: f32) -> f32
    ensures { result ≡ E.tanh x }
{
    elementary::tanh(x)
}

#[unsafe(no_mangle)]
pub extern "C" fn jb_exp(x: f32) -> f32
    ensures { result ≡ E.exp x }
{
    elementary::exp(x)
}

#[unsafe(no_mangle)]
pub extern "C" fn jb_atan2(y: f32, x: f32) -> f32
    ensures { result ≡ E.atan2 y x }
{
    elementary::atan2(y, x)
}

#[unsafe(no_mangle)]
pub extern "C" fn jb_sqrt(x: f32) -> f32
    ensures { result ≡ L.sqrt binary32 x }
{
    roots::sqrt(x)
}

#[unsafe(no_mangle)]
pub extern "C" fn jb_narrow(x: f64) -> f32
    ensures { result ≡ L.narrow x }
{
    narrowing::narrow(x)
}

// The line call: any line, any buffer.
#[unsafe(no_mangle)]
pub extern "C" fn jb_answer_line(line: &[u8], out: &mut [u8]) -> u32
    ensures { ◌≡◌ {A = F.Reply} (record { number = result; buffer = out.new }) (F.reply_of line.now out.old) }
{
    frames::answer_line(line, out)
}

// 0, or a refusal's number and place in one word.
fn code(a: Result<(), Refusal>) -> u32
    ensures { result ≡ refusal_code a }
{
    match a {
        Ok(()) => 0,
        Err(e) => u32::from(e.number()) * 65536 + u32::from(e.place()),
    }
}

// That a caller's buffers have room for so many values and counts.
fn check_room(fit: &[f32], values: usize, counts: &[u32], numbers: usize) -> Result<(), Refusal>
    ensures { J.RoomTested fit.now values counts.now numbers result }
{
    if fit.len() < values || counts.len() < numbers {
        return Err(Refusal::WrongLength);
    }
    Ok(())
}

// Values in front of whatever a caller's buffer holds behind them.
fn put<T: Copy>(values: &[T], out: &mut [T])
    requires { length values.now ≤ length out.old }
    ensures { out.new ≡ J.put_from values.now 0 out.old }
{
    out[..values.len()].copy_from_slice(values);
}

// The seven values of a fit's record: the Rust's six, and the mean.
fn record(f: TwoAxisFit) -> [f32; 7]
    ensures { (result ≡ record_values f) × (7 ≡ length result) }
{
    [
        f.amp,
        f.theta1,
        f.theta2,
        f.fit_std_error_theta1,
        f.fit_std_error_theta2,
        f.rms,
        f.mean,
    ]
}

fn ring_counts(r: RingFit) -> [u32; 4]
    ensures { (result ≡ map J.wide (fit_counts r)) × (4 ≡ length result) }
{
    let s = r.standing;
    [
        (r.starts % 4294967296) as u32,
        (r.first % 4294967296) as u32,
        (r.second % 4294967296) as u32,
        u32::from(s.known),
    ]
}

// The first V of the record's values, and the counts.
fn put_ring<const V: usize>(r: RingFit, fit: &mut [f32], counts: &mut [u32])
    requires { (V ≤ 7) × (V ≤ length fit.old) × (4 ≤ length counts.old) }
    ensures { (fit.new ≡ J.put_from (take V (record_values r.fit)) 0 fit.old)
        × (counts.new ≡ J.put_from (map J.wide (fit_counts r)) 0 counts.old) }
{
    put(&record(r.fit)[..V], fit);
    put(&ring_counts(r), counts);
}

// A ring's fit, by the entry of its kind.
fn ring_fit(kind: RingKind, samples: &[f32], angles: &[f32]) -> Result<RingFit, Refusal>
    ensures { result ≡ checked_ring [] (samples_of kind) samples.now angles.now }
{
    match kind {
        RingKind::Sixteen => checked::fit_ring(samples, angles),
        RingKind::TwentyFour => checked::fit_ring24(samples, angles),
    }
}

// The value call of a ring, of whose fit V values are written: any four slices.
fn ring_call<const V: usize>(
    kind: RingKind,
    samples: &[f32],
    angles: &[f32],
    fit: &mut [f32],
    counts: &mut [u32],
) -> Result<(), Refusal>
    requires { V ≤ 7 }
    ensures { ◌≡◌ {A = J.Stored} (record { code = refusal_code result; fit = fit.new; counts = counts.new })
        (J.ring_call (J.first_values V) [] (samples_of kind) samples.now angles.now fit.old counts.old) }
{
    check_room(fit, V, counts, 4)?;
    let r = ring_fit(kind, samples, angles)?;
    put_ring::<V>(r, fit, counts);
    Ok(())
}

// The same with tables. A closure for the fit would ask for a longer contract than this function has lines.
fn tables_call(
    tables: &[f32; seed_models::STATE_SIZE],
    samples: &[f32],
    angles: &[f32],
    fit: &mut [f32],
    counts: &mut [u32],
) -> Result<(), Refusal>
    ensures { ◌≡◌ {A = J.Stored} (record { code = refusal_code result; fit = fit.new; counts = counts.new })
        (J.ring_call J.the_record (W.tables_in tables.now) 16 samples.now angles.now fit.old counts.old) }
{
    check_room(fit, 7, counts, 4)?;
    let r = checked::fit_ring_with(tables, samples, angles)?;
    put_ring::<7>(r, fit, counts);
    Ok(())
}

#[unsafe(no_mangle)]
pub extern "C" fn jb_fit_ring(
    samples: &[f32],
    angles: &[f32],
    fit: &mut [f32],
    counts: &mut [u32],
) -> u32
    ensures { ◌≡◌ {A = J.Stored} (record { code = result; fit = fit.new; counts = counts.new })
        (J.ring_call J.the_six [] 16 samples.now angles.now fit.old counts.old) }
{
    code(ring_call::<6>(RingKind::Sixteen, samples, angles, fit, counts))
}

#[unsafe(no_mangle)]
pub extern "C" fn jb_fit_ring24(
    samples: &[f32],
    angles: &[f32],
    fit: &mut [f32],
    counts: &mut [u32],
) -> u32
    ensures { ◌≡◌ {A = J.Stored} (record { code = result; fit = fit.new; counts = counts.new })
        (J.ring_call J.the_six [] 24 samples.now angles.now fit.old counts.old) }
{
    code(ring_call::<6>(RingKind::TwentyFour, samples, angles, fit, counts))
}

// The ring's answer with its mean, of 16 samples or of 24: any four slices.
#[unsafe(no_mangle)]
pub extern "C" fn jb_ring_record(
    samples: &[f32],
    angles: &[f32],
    fit: &mut [f32],
    counts: &mut [u32],
) -> u32
    ensures { ◌≡◌ {A = J.Stored} (record { code = result; fit = fit.new; counts = counts.new })
        (J.ring_call J.the_record [] (J.ring_size samples.now) samples.now angles.now
        fit.old counts.old) }
{
    if samples.len() == 24 {
        return code(ring_call::<7>(RingKind::TwentyFour, samples, angles, fit, counts));
    }
    code(ring_call::<7>(RingKind::Sixteen, samples, angles, fit, counts))
}

// Words that hold no table, whatever they held.
#[unsafe(no_mangle)]
pub extern "C" fn jb_tables_fresh(tables: &mut [f32; seed_models::STATE_SIZE])
    ensures { tables.new ≡ W.fresh_in tables.old }
{
    checked_tables::fresh_tables(tables);
}

// The table of any angles, behind those that are held.
#[unsafe(no_mangle)]
pub extern "C" fn jb_tables_store(
    tables: &mut [f32; seed_models::STATE_SIZE],
    angles: &[f32],
) -> u32
    ensures { (result ≡ refusal_code (table_refusal tables.old angles.now))
        × (tables.new ≡ words_with tables.old angles.now) }
{
    code(checked_tables::store_table(tables, angles))
}

// The ring's answer with its mean, with the tables that are held: any four slices of 16 samples.
#[unsafe(no_mangle)]
pub extern "C" fn jb_tables_fit(
    tables: &[f32; seed_models::STATE_SIZE],
    samples: &[f32],
    angles: &[f32],
    fit: &mut [f32],
    counts: &mut [u32],
) -> u32
    ensures { ◌≡◌ {A = J.Stored} (record { code = result; fit = fit.new; counts = counts.new })
        (J.ring_call J.the_record (W.tables_in tables.now) 16 samples.now angles.now
        fit.old counts.old) }
{
    code(tables_call(tables, samples, angles, fit, counts))
}

// The eleven values of a disk's fit.
fn disk_values(m: Measured) -> [f32; 11]
    ensures { (result ≡ measured_values m) × (11 ≡ length result) }
{
    let f = m.fit;
    let e = m.estimate;
    let errors = e.errors;
    [
        f.theta1,
        f.theta2,
        f.width,
        f.amp,
        f.rms,
        f.rel_rms,
        f.corr,
        f.edge_score,
        f.objective,
        errors.error1,
        errors.error2,
    ]
}

fn disk_counts(m: Measured) -> [u32; 2]
    ensures { (result ≡ map J.wide (measured_counts m)) × (2 ≡ length result) }
{
    let e = m.estimate;
    let s = e.standing;
    [(m.trials % 4294967296) as u32, u32::from(s.known)]
}

// The value call of the disk: any seven slices. Those of its pixels stay apart, since a Disk has them of one length.
fn disk_call(
    val_energy: f32,
    base0: f32,
    base1: f32,
    xs: &[f32],
    ys: &[f32],
    vals_centered: &[f32],
    grad_angles: &[f32],
    grad_weights: &[f32],
    fit: &mut [f32],
    counts: &mut [u32],
) -> Result<(), Refusal>
    ensures { ◌≡◌ {A = J.Stored} (record { code = refusal_code result; fit = fit.new; counts = counts.new })
        (J.disk_call (lent_disk val_energy xs ys vals_centered grad_angles grad_weights) base0 base1
        fit.old counts.old) }
{
    check_room(fit, 11, counts, 2)?;
    let m = checked::fit_disk(
        val_energy,
        base0,
        base1,
        xs,
        ys,
        vals_centered,
        grad_angles,
        grad_weights,
    )?;
    put(&disk_values(m), fit);
    put(&disk_counts(m), counts);
    Ok(())
}

#[unsafe(no_mangle)]
pub extern "C" fn jb_fit_disk(
    val_energy: f32,
    base0: f32,
    base1: f32,
    xs: &[f32],
    ys: &[f32],
    vals_centered: &[f32],
    grad_angles: &[f32],
    grad_weights: &[f32],
    fit: &mut [f32],
    counts: &mut [u32],
) -> u32
    ensures { ◌≡◌ {A = J.Stored} (record { code = result; fit = fit.new; counts = counts.new })
        (J.disk_call (lent_disk val_energy xs ys vals_centered grad_angles grad_weights) base0 base1
        fit.old counts.old) }
{
    code(disk_call(
        val_energy,
        base0,
        base1,
        xs,
        ys,
        vals_centered,
        grad_angles,
        grad_weights,
        fit,
        counts,
    ))
}

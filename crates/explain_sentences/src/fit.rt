// A fit in sentences, and what in it is not to be taken at face value.
ghost use Rattle.std.specs.Prelude.{◌≡◌, ◌+◌, ◌≤◌, length};
ghost use Rattle.explain_words.specs.Tell.{flags_of};
ghost use Rattle.shapes.specs.Shapes.{fit_length};
ghost use Rattle.explain_sentences.specs.Sentences as S;

use explain_warnings::{Beside, Reading};
use explain_words::Page;
use explain_words::numbers::{
    BLANK, Word, figures, hundredths, letters, number, plural, thousandths,
};
use shapes::{Kind, RingKind};

fn degrees(x: f32) -> f64 {
    floats::widen(x) * 57.29577951308232
}

fn figures_of(x: f32) -> Word {
    figures(floats::widen(x))
}

// The residual in percent of the amplitude, where that says anything.
fn share_of(r: Reading) -> Option<f64> {
    let share = floats::widen(r.rms) / floats::widen(r.amp) * 100.0;
    if (share >= 0.0) & (share < 1000000.0) {
        return Some(share);
    }
    None
}

// The words of that share: what stands in front of it, the number, and what stands behind it.
fn share_words(r: Reading) -> [Word; 3]
    ensures { 3 ≡ length result }
{
    match share_of(r) {
        Some(share) => [
            letters(b" ("),
            hundredths(share),
            letters(b" % of the amplitude)"),
        ],
        None => [BLANK; 3],
    }
}

// A ring's starts, their noun, the first one's updates, those of the second behind them, where there are
// two, and the noun of the last.
fn ring_words(beside: Beside) -> [Word; 6]
    ensures { 6 ≡ length result }
{
    let Beside::Ring(s) = beside else {
        return [BLANK; 6];
    };
    let starts = u64::from(s.number);
    let first = u64::from(s.first);
    let second = u64::from(s.second);
    if starts == 1 {
        return [
            number(starts),
            plural(starts),
            number(first),
            BLANK,
            BLANK,
            plural(first),
        ];
    }
    [
        number(starts),
        plural(starts),
        number(first),
        letters(b" and "),
        number(second),
        plural(second),
    ]
}

// What a disk's line says beside its fit, with the noun of the trials.
fn disk_words(beside: Beside) -> [Word; 7]
    ensures { 7 ≡ length result }
{
    let Beside::Disk(d) = beside else {
        return [BLANK; 7];
    };
    let trials = u64::from(d.trials);
    [
        figures_of(d.rel_rms),
        figures_of(d.width),
        figures_of(d.corr),
        figures_of(d.edge_score),
        figures_of(d.objective),
        number(trials),
        plural(trials),
    ]
}

fn words_of(line: u64, r: Reading) -> [Word; 24]
    ensures { 24 ≡ length result }
{
    let x = degrees(r.theta1);
    let y = degrees(r.theta2);
    let [open, share, close] = share_words(r);
    let [starts, starts_end, first, and, second, updates_end] = ring_words(r.beside);
    let [rel_rms, width, corr, edge_score, objective, trials, noun] = disk_words(r.beside);
    [
        number(line),
        hundredths(x),
        hundredths(y),
        hundredths(y - x),
        thousandths(degrees(r.error1)),
        thousandths(degrees(r.error2)),
        figures_of(r.amp),
        figures_of(r.rms),
        open,
        share,
        close,
        starts,
        starts_end,
        first,
        and,
        second,
        updates_end,
        rel_rms,
        width,
        corr,
        edge_score,
        objective,
        trials,
        noun,
    ]
}

// Which sentences are told: a ring's, a disk's or both's.
fn flags_of(kind: Kind, known: bool) -> [bool; 15]
    ensures { (result ≡ flags_of (S.fit_rows kind known)) × (15 ≡ length result) }
{
    let kind = Some(kind);
    let disk = super::of_disk(kind);
    [
        super::of_ring(kind, RingKind::Sixteen),
        super::of_ring(kind, RingKind::TwentyFour),
        disk,
        true,
        known,
        !known,
        true,
        true,
        !disk,
        disk,
        disk,
        disk,
        disk,
        disk,
        disk,
    ]
}

// Line number `number`, a fit of its answer's kind.
pub fn told(page: &mut Page, number: u64, line: &[u8], kind: Kind)
    requires { (fit_length kind ≤ length line.now) × (page.old.at + 44424 ≤ length page.old.text.now) }
    ensures { (page.new.at ≤ page.old.at + 44424) × S.Fitted line.now kind page.old page.new }
{
    let r = explain_warnings::read(line, kind);
    let flags = flags_of(kind, r.known);
    let words = words_of(number, r);
    page.tell(
        b"line {a}: ring fit
|line {a}: 24-point ring fit
|line {a}: disk fit
|  axes        {b} and {c} degrees, {d} apart
|  errors      {e} and {f} degrees
|  errors      not known ({e} and {f} degrees stand in their place)
|  amplitude   {g}
|  residual    {h}{i}{j}{k}
|  work        {l} start{m}, {n}{o}{p} update{q}
|  rel_rms     {r}
|  width       {s}
|  correlation {t}
|  edge score  {u}
|  objective   {v}
|  work        {w} trial{x}
|",
        &flags,
        &words,
    );
    explain_warnings::warnings(page, r);
}

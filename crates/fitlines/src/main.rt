// fitlines: the answer to each frame line of standard input, one a line, on standard output.
// Everything that decides anything is in `lines` and `frames`; here are the buffers and the loop.
#![tactic(auto)]

ghost use Rattle.std.specs.Prelude.{◌≡◌, length};
ghost use Rattle.lines.specs.Turns.{Answered, StateKept, Lies, input, output};
ghost use Rattle.fitlines.specs.Fitlines as P;

use lines::{Found, State};
use std::io::{Read, Write};

// The longest answer, a disk's, and its line feed.
const ANSWER: usize = 99;

// The line up to `e` answered; the next one starts at `from`.
fn line_turn<W: Write>(
    writer: &mut W,
    buf: &[u8],
    text: &mut [u8],
    s: State,
    e: usize,
    from: usize,
) -> State
    requires { StateKept s × Lies s e from × (length buf.now ≡ input) × (length text.old ≡ output) }
    ensures { StateKept result × Answered 99 s from (P.answer s buf.now e) text.old text.new result }
{
    let f = s.feed;
    let at = s.room(writer, text, ANSWER);
    let put = frames::append(f.skip, &buf[f.from..e], text, at);
    s.answered(from, put)
}

// One line answered, or one block read, or the end.
fn turn<R: Read, W: Write>(
    reader: &mut R,
    writer: &mut W,
    buf: &mut [u8],
    text: &mut [u8],
    s: State,
) -> State
    requires { StateKept s × (length buf.old ≡ input) × (length text.old ≡ output) }
    ensures { StateKept result × P.Turn s buf.old buf.new text.old text.new result }
{
    match s.feed.find(buf) {
        Found::Line(e, next) => line_turn(writer, buf, text, s, e, next),
        Found::More => s.read_on(reader, writer, buf, text, shapes::LIMIT),
        Found::Done => s.finish(writer, text),
    }
}

// The loop of this program alone: one in `lines` with a closure for the turn would take that closure's contract for its own.
fn serve<R: Read, W: Write>(
    reader: &mut R,
    writer: &mut W,
    buf: &mut [u8],
    text: &mut [u8],
) -> State
    requires { (length buf.old ≡ input) × (length text.old ≡ output) }
    ensures { P.Served buf.old text.old result buf.new text.new }
{
    let mut s = State::begin();
    for _ in 0..u64::MAX {
        s = turn(reader, writer, buf, text, s);
        if !s.more {
            return s;
        }
    }
    s
}

fn main(rt: HostRuntime) {
    let mut buf = [0u8; lines::INPUT];
    let mut text = [0u8; lines::OUTPUT];
    serve(&mut rt.stdin(), &mut rt.stdout(), &mut buf, &mut text);
}

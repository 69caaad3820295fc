// Replays the trace on standard input and writes its answer log to standard output. It tells on standard error what went wrong.
#![tactic(auto)]

ghost use Rattle.std.specs.Prelude.{◌≡◌, ◌≤◌, length};
ghost use Rattle.steps.specs.Tie.{lent, SameSlices};
ghost use Rattle.state.specs.View.{zero_tables};
ghost use Rattle.traces.specs.Trace.{longest_record};
ghost use Rattle.answers.specs.Answers.{longest_answer};
ghost use Rattle.turns.specs.Turns.{window, Right, Better, Turned};
ghost use Rattle.turns.specs.Runs.{Ran};
ghost use Rattle.mtredovim.specs.Words.{Says};

use limits::{MEMBERS, NOTICES, PLACES};
use std::io::{Read, Write};
use steps::Lent;
use turns::{End, Turn, first, follow};

// As many steps as the room holds, written out in one block; then more input, if that is what is wanted.
fn advance<R: Read, W: Write>(
    v: Turn,
    t: &mut Lent,
    buf: &mut [u8],
    out: &mut [u8],
    input: &mut R,
    output: &mut W,
) -> Turn
    requires { Right (length buf.old) v.cursor v.from v.to }
    ensures turned { Turned v.cursor (lent t.old) (window buf.old v.from v.to) v.last out.old result (lent t.new) out.new (window buf.new result.from result.to) }
    ensures same_slices { SameSlices t.new t.old }
    ensures better { result.end ≡ None → Better (length buf.old) v.cursor v.from v.to v.last result }
{
    let r = replay::pump(v.cursor, t, &buf[v.from..v.to], v.last, out);
    let taken = streams::write_all(output, &out[..r.wrote]).is_ok();
    follow(r, buf, v.from, v.to, v.last, taken, input)
}

// ALL TURNS, from the fresh line and tables of zeros until one that is not followed by another: the last one.
fn replay_all<R: Read, W: Write>(
    t: &mut Lent,
    buf: &mut [u8],
    out: &mut [u8],
    input: &mut R,
    output: &mut W,
) -> Turn
    requires notices_value { lent t.old ≡ zero_tables }
    requires longest_record_in_bounds { longest_record ≤ length buf.old }
    requires longest_answer_in_bounds { longest_answer ≤ length out.old }
    ensures ran { Ran result (lent t.new) }
    ensures same_slices { SameSlices t.new t.old }
{
    let mut v = first();
    loop {
        let r = advance(v, t, buf, out, input, output);
        if r.end.is_some() {
            return r;
        }
        v = r;
    }
}

// Hands to `write`, on standard error, the words told of an end, and behind those of a malformed record the digits of its offset. Nobody is told where that fails.
fn say<W: Write>(v: Turn, words: &[u8], digits: &[u8], errors: &mut W)
    requires { Says v.end v.cursor.at words.now digits.now }
{
    let _ = streams::write_all(errors, words);
    let _ = streams::write_all(errors, digits);
    let _ = streams::write_all(errors, b"\n");
}

// Tells why the log is not whole, or that it ends in `ER`; nothing of any other log.
fn tell<W: Write>(v: Turn, errors: &mut W) {
    let mut text = [0u8; 20];
    let k = streams::decimal(v.cursor.at as u64, &mut text);
    match v.end {
        None | Some(End::Whole) => {}
        Some(End::Malformed) => say(
            v,
            b"mtredovim: malformed record at offset ",
            &text[..k],
            errors,
        ),
        Some(End::ReadFailed) => say(v, b"mtredovim: reading failed", b"", errors),
        Some(End::NotTaken) => say(v, b"mtredovim: writing failed", b"", errors),
    }
}

fn main(rt: HostRuntime) {
    let mut places = [0u32; PLACES];
    let mut members = [0u32; MEMBERS];
    let mut notices = [0u32; NOTICES];
    let mut buf = streams::large_buffer();
    let mut out = streams::large_buffer();
    let mut t = Lent {
        members: &mut members,
        places: &mut places,
        notices: &mut notices,
    };
    let v = replay_all(
        &mut t,
        &mut buf,
        &mut out,
        &mut rt.stdin(),
        &mut rt.stdout(),
    );
    tell(v, &mut rt.stderr());
}

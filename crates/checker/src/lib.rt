// THE CHECKER: a trace and a log come in pieces, each from a reader of its own; the log is held against the one that the rules give for the trace, byte for byte,
// in constant memory. Document 02, R-14.
#![tactic(auto)]

mod alike; // alike.rt: how many bytes two slices have in common

ghost use Rattle.std.specs.Prelude.{◌≡◌, ◌+◌, ◌-◌, ◌^◌, ◌<◌, ◌≤◌, length, IfSome};
ghost use Rattle.std.specs.Io.KnownBytes.{ReadConsumes};
ghost use Rattle.traces.specs.Trace.{longest_record};
ghost use Rattle.answers.specs.Answers.{longest_answer};
ghost use Rattle.state.specs.View.{zero_tables};
ghost use Rattle.steps.specs.Tie.{lent, SameSlices};
ghost use Rattle.turns.specs.Turns.{window, Right, Better};
ghost use Rattle.checker.specs.Checks.{Inside, Fetched, without_more, with_more, at_the_end, Compares, StepsOn, Closes, failed, Advances, first_check, Judges};
ghost use Rattle.checker.specs.Bounds.{Fit, Nearer};

use std::io::Read;
use steps::Lent;
use streams::ReadError;
use turns::{End, Turn};

// What is found, and told: the log is the one that the rules give; it differs, is too long or ends early, at the offset; the trace or the log could not be read.
#[derive(Clone, Copy)]
pub enum Finding {
    Accepted,
    Differs,
    TooLong,
    EndsEarly,
    TraceFailed,
    LogFailed,
}

// A window of the log's buffer, and what a read answered, where one was made.
#[derive(Clone, Copy)]
pub struct Part {
    pub from: usize,
    pub to: usize,
    pub read: Option<Result<usize, ReadError>>,
}

// Where the checker stands after a move: the last turn of the replay; of what it wrote, the bytes from `met` to `wrote` are yet to be met by the log; the window of
// the log's buffer; what a read of the log answered, where the move made one; how many bytes of the log were met; and what is found, where no other move follows.
#[derive(Clone, Copy)]
pub struct Check {
    pub turn: Turn,
    pub met: usize,
    pub wrote: usize,
    pub from: usize,
    pub to: usize,
    pub read: Option<Result<usize, ReadError>>,
    pub at: u64,
    pub finding: Option<Finding>,
}

// A window with something in it, where the log has more: an empty one is read anew.
fn fetch<L: Read>(log: &mut [u8], from: usize, to: usize, log_input: &mut L) -> Part
    requires { Inside (length log.old) from to }
    ensures fetched { Fetched (window log.old from to) result.read (window log.new result.from result.to) }
    ensures inside { Inside (length log.old) result.from result.to }
    ensures told { IfSome result.read (λ r. ReadConsumes (L.remaining log_input.old) (L.remaining log_input.new) r log.new) }
{
    if from < to {
        return Part {
            from,
            to,
            read: None,
        };
    }
    let read = streams::read(log_input, log);
    Part {
        from: 0,
        to: read.unwrap_or(0),
        read: Some(read),
    }
}

// What is found where bytes are to be met and nothing came of the log, by what a read answered.
fn without_more(read: Option<Result<usize, ReadError>>) -> Finding
    ensures { result ≡ without_more read }
{
    match read {
        Some(Err(_)) => Finding::LogFailed,
        _ => Finding::EndsEarly,
    }
}

// What is found where bytes of the log came, by how many are left that are to be met, and how many of the log: they differ where there are both.
fn with_more(left: usize, more: usize) -> Option<Finding>
    ensures { result ≡ with_more left more }
{
    if 0 < left && 0 < more {
        Some(Finding::Differs)
    } else {
        None
    }
}

// What is found where all that the rules give was met, by how many bytes of the log are left, and what a read answered.
fn at_the_end(more: usize, read: Option<Result<usize, ReadError>>) -> Finding
    ensures { result ≡ at_the_end more read }
{
    match read {
        _ if 0 < more => Finding::TooLong,
        Some(Err(_)) => Finding::LogFailed,
        _ => Finding::Accepted,
    }
}

// Bytes that are to be met, held against the log.
fn compare<L: Read>(c: Check, out: &[u8], log: &mut [u8], log_input: &mut L) -> Check
    requires { Inside (length out.now) c.met c.wrote × Inside (length log.old) c.from c.to × (c.at + (c.wrote - c.met) < 2 ^ 64) }
    ensures compares { Compares c (window out.now c.met c.wrote) (window log.old c.from c.to) result (window out.now result.met result.wrote) (window log.new result.from result.to) }
    ensures inside { Inside (length out.now) result.met result.wrote × Inside (length log.old) result.from result.to }
{
    let p = fetch(log, c.from, c.to, log_input);
    if p.from == p.to {
        return Check {
            from: p.from,
            to: p.to,
            read: p.read,
            finding: Some(without_more(p.read)),
            ..c
        };
    }
    let k = alike::alike(&log[p.from..p.to], &out[c.met..c.wrote]);
    let met = c.met + k;
    let from = p.from + k;
    Check {
        met,
        from,
        to: p.to,
        read: p.read,
        at: c.at + k as u64,
        finding: with_more(c.wrote - met, p.to - from),
        ..c
    }
}

// As many steps of the replay as the room holds, and then more of the trace, if that is what is wanted. What they wrote is to be met.
fn steps<R: Read>(c: Check, t: &mut Lent, buf: &mut [u8], out: &mut [u8], input: &mut R) -> Check
    requires { Right (length buf.old) c.turn.cursor c.turn.from c.turn.to }
    ensures steps_on { StepsOn c (lent t.old) (window buf.old c.turn.from c.turn.to) out.old result (lent t.new) (window buf.new result.turn.from result.turn.to) out.new }
    ensures same_slices { SameSlices t.new t.old }
    ensures wrote_in_bounds { (result.wrote ≤ length out.old) × (result.turn.end ≡ None → Better (length buf.old) c.turn.cursor c.turn.from c.turn.to c.turn.last result.turn) }
{
    let v = c.turn;
    let r = replay::pump(v.cursor, t, &buf[v.from..v.to], v.last, out);
    Check {
        turn: turns::follow(r, buf, v.from, v.to, v.last, true, input),
        met: 0,
        wrote: r.wrote,
        read: None,
        finding: None,
        ..c
    }
}

// The end of the trace: all that the rules give was met. Whether the log has more.
fn close<L: Read>(c: Check, log: &mut [u8], log_input: &mut L) -> Check
    requires { Inside (length log.old) c.from c.to }
    ensures { Closes c (window log.old c.from c.to) result (window log.new result.from result.to) }
{
    let p = fetch(log, c.from, c.to, log_input);
    Check {
        from: p.from,
        to: p.to,
        read: p.read,
        finding: Some(at_the_end(p.to - p.from, p.read)),
        ..c
    }
}

// The trace could not be read.
fn fail(c: Check) -> Check
    ensures { result ≡ failed c }
{
    Check {
        read: None,
        finding: Some(Finding::TraceFailed),
        ..c
    }
}

// A MOVE: what is to be met is held against the log; where all of it was met, the replay goes on or ends.
fn advance<R: Read, L: Read>(
    c: Check,
    t: &mut Lent,
    buf: &mut [u8],
    out: &mut [u8],
    log: &mut [u8],
    input: &mut R,
    log_input: &mut L,
) -> Check
    requires { Fit (length buf.old) (length out.old) (length log.old) c }
    ensures advances { Advances c (lent t.old) (window buf.old c.turn.from c.turn.to) (window out.old c.met c.wrote) (window log.old c.from c.to) result (lent t.new) (window buf.new result.turn.from result.turn.to) (window out.new result.met result.wrote) (window log.new result.from result.to) }
    ensures same_slices { SameSlices t.new t.old }
    ensures nearer { result.finding ≡ None → Nearer (length buf.old) (length out.old) (length log.old) c result }
{
    if c.met < c.wrote {
        return compare(c, out, log, log_input);
    }
    match c.turn.end {
        None => steps(c, t, buf, out, input),
        Some(End::Whole) => close(c, log, log_input),
        Some(End::Malformed) => close(c, log, log_input),
        Some(End::ReadFailed) => fail(c),
        Some(End::NotTaken) => fail(c),
    }
}

// Before any move.
fn first() -> Check
    ensures { result ≡ first_check }
{
    Check {
        turn: turns::first(),
        met: 0,
        wrote: 0,
        from: 0,
        to: 0,
        read: None,
        at: 0,
        finding: None,
    }
}

// ALL MOVES, from the fresh line and tables of zeros until something is found: the judgement.
pub fn check_all<R: Read, L: Read>(
    t: &mut Lent,
    buf: &mut [u8],
    out: &mut [u8],
    log: &mut [u8],
    input: &mut R,
    log_input: &mut L,
) -> Check
    requires notices_value { lent t.old ≡ zero_tables }
    requires longest_record_in_bounds { (longest_record ≤ length buf.old) × (length buf.old ≤ 65536) }
    requires longest_answer_in_bounds { (longest_answer ≤ length out.old) × (length out.old ≤ 65536) }
    requires log_nonzero { 0 < length log.old }
    ensures judges { Judges result }
    ensures same_slices { SameSlices t.new t.old }
{
    let mut c = first();
    loop {
        let r = advance(c, t, buf, out, log, input, log_input);
        if r.finding.is_some() {
            return r;
        }
        c = r;
    }
}

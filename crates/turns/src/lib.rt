// The turns of a program that replays a trace as it comes: a call of `pump` on the window of a buffer, whose bytes are handed on to be taken (written out, or
// held against a log), and then more input, if that is wanted.
#![tactic(auto)]

ghost use Rattle.std.specs.Prelude.{◌≡◌, true, false, ◌+◌, ◌^◌, ◌<◌, length};
ghost use Rattle.steps.specs.declared.Status.TheVariants.{MoreBytes};
ghost use Rattle.turns.specs.Turns.{given_by, reads, after_steps, first_turn, read_turn, window, Right, Better, Refilled, Followed, Onward};

use std::io::Read;
use steps::{Cursor, Status, Stepped};
use streams::ReadError;

// Why no turn follows. Whole: the log is taken to its end, and every record was well formed. Malformed: it is taken to its end, with the `ER` of the cursor's offset.
// ReadFailed: a read failed. NotTaken: what the steps wrote was not all taken.
#[derive(Clone, Copy)]
pub enum End {
    Whole,
    Malformed,
    ReadFailed,
    NotTaken,
}

// A turn: the cursor and the window of the buffer after it, whether that window is the last, whether all that the steps wrote was
// taken, what a read answered, where one was made, and the end, where no turn follows.
#[derive(Clone, Copy)]
pub struct Turn {
    pub cursor: Cursor,
    // kept: the new form is no plainer: what holds of `from` and `to` (`Right`) is of the buffer's length and the cursor too, and each slice stays `&buf[w.from..w.to]`
    pub from: usize,
    pub to: usize,
    pub last: bool,
    pub taken: bool,
    pub read: Option<Result<usize, ReadError>>,
    pub end: Option<End>,
}

// Where the turns begin: nothing is read, and nothing written.
pub fn first() -> Turn
    ensures { result ≡ first_turn }
{
    Turn {
        cursor: replay::start(),
        from: 0,
        to: 0,
        last: false,
        taken: true,
        read: None,
        end: None,
    }
}

// The turn that ends with a read behind n bytes, which answered `read`.
fn heard(cursor: Cursor, n: usize, read: Result<usize, ReadError>) -> Turn
    requires { n + given_by (Some read) < 2 ^ 64 }
    ensures { result ≡ read_turn cursor n read }
{
    match read {
        Ok(got) => Turn {
            cursor,
            from: 0,
            to: n + got,
            last: got == 0,
            taken: true,
            read: Some(read),
            end: None,
        },
        Err(_) => Turn {
            cursor,
            from: 0,
            to: n,
            last: false,
            taken: true,
            read: Some(read),
            end: Some(End::ReadFailed),
        },
    }
}

// Whether a turn reads: all that the steps wrote was taken, and the steps want more bytes.
fn reads(taken: bool, status: Status) -> bool
    ensures { result ≡ reads taken status }
{
    taken && matches!(status, Status::MoreBytes)
}

// What follows a turn that does not read; `emptied`: nothing of the window is left, in which a malformed record stays. MoreRoom and NotSound never come.
fn after_steps(taken: bool, status: Status, emptied: bool) -> Option<End>
    ensures { result ≡ after_steps taken status emptied }
{
    match status {
        _ if !taken => Some(End::NotTaken),
        Status::GoOn | Status::MoreBytes => None,
        Status::MoreRoom | Status::NotSound => Some(End::NotTaken),
        Status::Done if emptied => Some(End::Whole),
        Status::Done => Some(End::Malformed),
    }
}

// The window moves to the front, and more is read behind it.
fn refill<R: Read>(c: Cursor, buf: &mut [u8], from: usize, to: usize, input: &mut R) -> Turn
    requires { Right (length buf.old) c from to }
    ensures refilled { Refilled c (window buf.old from to) result (window buf.new result.from result.to) }
    ensures better { result.end ≡ None → Better (length buf.old) c from to false result }
{
    let n = replay::slide(buf, from, to);
    let read = streams::read(input, &mut buf[n..]);
    heard(c, n, read)
}

// What follows a call of `pump` on the window from `from` to `to`, which answered r, and whose bytes were all taken or not: more input, if that is what is wanted.
pub fn follow<R: Read>(
    r: Stepped,
    buf: &mut [u8],
    from: usize,
    to: usize,
    last: bool,
    taken: bool,
    input: &mut R,
) -> Turn
    requires { Right (length buf.old) r.cursor (from + r.used) to × (r.status ≡ MoreBytes → last ≡ false) }
    ensures followed { Followed r (window buf.old from to) last result (window buf.new result.from result.to) }
    ensures onward { Onward (length buf.old) r from to last taken result }
    ensures taken_value { result.taken ≡ taken }
{
    let next = from + r.used;
    if reads(taken, r.status) {
        return refill(r.cursor, buf, next, to, input);
    }
    Turn {
        cursor: r.cursor,
        from: next,
        to,
        last,
        taken,
        read: None,
        end: after_steps(taken, r.status, next == to),
    }
}

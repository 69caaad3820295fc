// One step of a replay on a line that has been tested: at most one answer record. Document 01, "Trace and answer records" and "One tick"; document 02, R-1, R-8, R-9 and R-13.
#![tactic(auto)]

mod asking; // asking.rt: what a record asks
mod reading; // reading.rt: a record is read, and its call is made or its ticks begin
mod ticking; // ticking.rt: the ticks of a `TK`

ghost use Rattle.std.specs.Prelude.{◌≡◌, true, ◌≤◌, length};
ghost use Rattle.both.specs.View.{sound_kept};
ghost use Rattle.fields.specs.Formats.{over};
ghost use Rattle.answers.specs.Answers.{answer_bytes, longest_answer};
ghost use Rattle.steps.specs.declared.Phase.TheVariants.{Reading};
ghost use Rattle.steps.specs.declared.Status.TheVariants.{GoOn};
ghost use Rattle.steps.specs.Steps.{next};
ghost use Rattle.steps.specs.Tie.{lent, SameSlices, point_of, Makes, cursor_at, nothing_done};

use answers::Reply;
use both::Kept;

// The three tables, of connections, of places and of notices, lent together.
#[derive(Drop)]
pub struct Lent<'a> {
    pub members: &'a mut [u32],
    pub places: &'a mut [u32],
    pub notices: &'a mut [u32],
}

// What comes next: a record is read; a tick of a `TK` is run, of which `left` of `asked` are still to run; or nothing.
#[derive(Clone, Copy)]
pub enum Phase {
    Reading,
    Ticking { asked: u16, left: u16 },
    Finished,
}

// A place in the trace: its offset, what comes next, and the line there.
#[derive(Clone, Copy)]
pub struct Cursor {
    pub at: u32,
    pub phase: Phase,
    pub line: Kept,
}

// GoOn: a step was made. MoreBytes: the window is too short and not the last. MoreRoom: the room lent is too short for an answer.
// NotSound: the line and its tables are not sound. Done: the log is whole.
#[derive(Clone, Copy)]
pub enum Status {
    GoOn,
    MoreBytes,
    MoreRoom,
    NotSound,
    Done,
}

// A step: the place after it, the bytes taken from the window, the bytes written to the room.
#[derive(Clone, Copy)]
pub struct Stepped {
    pub cursor: Cursor,
    pub used: usize,
    pub wrote: usize,
    pub status: Status,
}

// A step with an answer: it is written, and a record is read next.
#[inline(always)]
pub(crate) fn answered(at: u32, line: Kept, used: usize, reply: Reply, out: &mut [u8]) -> Stepped
    requires { longest_answer ≤ length out.old }
    ensures { (result ≡ record { cursor = cursor_at at Reading line; used = used; wrote = length (answer_bytes reply); status = GoOn }) × (out.new ≡ over (answer_bytes reply) out.old) }
{
    let wrote = answers::write(Some(reply), out);
    Stepped {
        cursor: Cursor {
            at,
            phase: Phase::Reading,
            line,
        },
        used,
        wrote,
        status: Status::GoOn,
    }
}

// Nothing is taken or written.
pub(crate) fn waits(at: u32, phase: Phase, h: Kept, status: Status) -> Stepped
    ensures { result ≡ nothing_done (cursor_at at phase h) status }
{
    Stepped {
        cursor: Cursor { at, phase, line: h },
        used: 0,
        wrote: 0,
        status,
    }
}

// One step on a line and tables that are sound, with room for an answer.
// kept: the new form is no plainer: the line stands in the cursor, which each step answers anew, so a type that says `sound_kept` of line and tables would hold the line twice
pub fn step_tested(c: Cursor, t: &mut Lent, window: &[u8], last: bool, out: &mut [u8]) -> Stepped
    requires { (sound_kept c.line (lent t.old) ≡ true) × (longest_answer ≤ length out.old) }
    ensures makes { Makes (next (point_of c (lent t.old)) window.now last) result (lent t.new) 0 out.old out.new }
    ensures same_slices { SameSlices t.new t.old }
{
    let at = c.at;
    let h = c.line;
    let p = c.phase;
    match p {
        Phase::Reading => reading::read_step(at, h, t, window, last, out),
        Phase::Ticking { asked, left } => ticking::tick_step(at, h, asked, left, t, out),
        Phase::Finished => waits(at, Phase::Finished, h, Status::Done),
    }
}

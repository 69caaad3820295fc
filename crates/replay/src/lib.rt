// THE REPLAY: a trace in, its answer log out, one answer record a step, in a window of any size. The line's soundness is tested once a call of `step` or
// `pump`, not once a tick: each tick is still what the public call would answer, since a request on a sound line leaves a sound one.
#![tactic(auto)]

ghost use Rattle.std.specs.Prelude.{◌≡◌, true, ◌+◌, ◌/◌, ◌≤◌, length, drop};
ghost use Rattle.answers.specs.Answers.{longest_answer};
ghost use Rattle.steps.specs.Steps.{beginning, next, steps};
ghost use Rattle.both.specs.View.{sound_kept};
ghost use Rattle.steps.specs.Tie.{lent, SameSlices, point_of, cursor_of, Makes};
ghost use Rattle.replay.specs.Slides.{slide_length, slid};
ghost use Rattle.replay.specs.Sessions.{refusal, Steps};

use answers::LONGEST_ANSWER;
use steps::{Cursor, Lent, Phase, Status, Stepped};

// Where every replay begins; its tables are zeros there.
pub fn start() -> Cursor
    ensures { result ≡ cursor_of beginning }
{
    Cursor {
        at: 0,
        phase: Phase::Reading,
        line: both::fresh_line(),
    }
}

// A step on the window from `used` on, into the room from `wrote` on.
fn step_at(
    c: Cursor,
    t: &mut Lent,
    window: &[u8],
    used: usize,
    last: bool,
    out: &mut [u8],
    wrote: usize,
) -> Stepped
    requires { (sound_kept c.line (lent t.old) ≡ true) × (used ≤ length window.now) × (wrote + longest_answer ≤ length out.old) }
    ensures makes { Makes (next (point_of c (lent t.old)) (drop used window.now) last) result (lent t.new) wrote out.old out.new }
    ensures same_slices { SameSlices t.new t.old }
{
    steps::step_tested(c, t, &window[used..], last, &mut out[wrote..])
}

// As many steps as the room surely holds, or fewer where one stops.
fn run(c: Cursor, t: &mut Lent, window: &[u8], last: bool, out: &mut [u8]) -> Stepped
    requires { (sound_kept c.line (lent t.old) ≡ true) × (longest_answer ≤ length out.old) }
    ensures makes { Makes (steps (length out.old / longest_answer) (point_of c (lent t.old)) window.now last) result (lent t.new) 0 out.old out.new }
    ensures same_slices { SameSlices t.new t.old }
{
    let mut so_far = Stepped {
        cursor: c,
        used: 0,
        wrote: 0,
        status: Status::GoOn,
    };
    for i in 0..out.len() / LONGEST_ANSWER {
        let s = step_at(
            so_far.cursor,
            t,
            window,
            so_far.used,
            last,
            out,
            so_far.wrote,
        );
        so_far = Stepped {
            cursor: s.cursor,
            used: so_far.used + s.used,
            wrote: so_far.wrote + s.wrote,
            status: s.status,
        };
        if !matches!(so_far.status, Status::GoOn) {
            return so_far;
        }
    }
    so_far
}

// The answer where no step can be made: the line and its tables are not sound, or the room holds no answer. Nothing is done.
fn refused(c: Cursor, t: &Lent, room: usize) -> Option<Stepped>
    ensures { result ≡ refusal c (lent t.now) room }
{
    let status = if !both::is_sound(c.line, t.members, t.places, t.notices) {
        Status::NotSound
    } else if room < LONGEST_ANSWER {
        Status::MoreRoom
    } else {
        return None;
    };
    Some(Stepped {
        cursor: c,
        used: 0,
        wrote: 0,
        status,
    })
}

// ONE STEP: at most one answer record. The window starts at the cursor's place in the trace; `last`: nothing comes behind it.
pub fn step(c: Cursor, t: &mut Lent, window: &[u8], last: bool, out: &mut [u8]) -> Stepped
    ensures steps { Steps 1 c (lent t.old) window.now last out.old result (lent t.new) out.new }
    ensures same_slices { SameSlices t.new t.old }
{
    match refused(c, t, out.len()) {
        Some(answer) => answer,
        None => steps::step_tested(c, t, window, last, out),
    }
}

// MANY STEPS: one for each 19 bytes of room, or fewer where one stops.
pub fn pump(c: Cursor, t: &mut Lent, window: &[u8], last: bool, out: &mut [u8]) -> Stepped
    ensures steps { Steps (length out.old / longest_answer) c (lent t.old) window.now last out.old result (lent t.new) out.new }
    ensures same_slices { SameSlices t.new t.old }
{
    match refused(c, t, out.len()) {
        Some(answer) => answer,
        None => run(c, t, window, last, out),
    }
}

// The bytes from `from` to `to` move to the front. Answers how many they are: none where that is no part of the buffer.
pub fn slide(buf: &mut [u8], from: usize, to: usize) -> usize
    ensures { (result ≡ slide_length from to (length buf.old)) × (buf.new ≡ slid buf.old from result) }
{
    if to < from || buf.len() < to {
        return 0;
    }
    buf.copy_within(from..to, 0);
    to - from
}

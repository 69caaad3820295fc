// A step of a `TK`: quiet ticks at once, or one tick with its departure, or the `TA`.
ghost use Rattle.std.specs.Prelude.{◌≡◌, true, ◌+◌, ◌-◌, ◌≤◌, length};
ghost use Rattle.rules.specs.Limits.{clock_end};
ghost use Rattle.tables.specs.Lent.{Tables};
ghost use Rattle.both.specs.View.{view, kept_of, sound_kept, kept_clock};
ghost use Rattle.both.specs.Quiet.{passed, quiet_ticks};
ghost use Rattle.fields.specs.Formats.{over};
ghost use Rattle.answers.specs.Answers.{longest_answer};
ghost use Rattle.answer_log.specs.Log.{all_done_verdict};
ghost use Rattle.steps.specs.declared.Phase.TheVariants.{Ticking};
ghost use Rattle.steps.specs.declared.Status.TheVariants.{GoOn};
ghost use Rattle.steps.specs.Steps.{one_tick, tick_next};
ghost use Rattle.steps.specs.Tie.{lent, SameSlices, cursor_at, told_log, Makes};

use super::{Cursor, Lent, Phase, Status, Stepped, answered};
use answers::{Reply, low};
use both::{Kept, Replied};

// The verdict of a `TK` whose ticks are all done: 2 if none was asked and no link is set.
fn all_done_verdict(h: Kept, t: &Lent, asked: u16) -> u8
    requires { sound_kept h (lent t.now) ≡ true }
    ensures { result ≡ all_done_verdict asked (view h (lent t.now)) }
{
    if asked != 0 {
        return 0;
    }
    if !both::is_set(h) {
        return 2;
    }
    0
}

// Of the ticks left those that can be passed over at once.
fn quiet_left(h: Kept, t: &Lent, left: u16) -> u16
    requires { sound_kept h (lent t.now) ≡ true }
    ensures { result ≡ quiet_ticks left (view h (lent t.now)) }
{
    both::quiet::quiet_ticks(h, t.members, t.places, t.notices, left)
}

// A departure is written, if there is one.
fn put_departure(told: Replied, out: &mut [u8]) -> usize
    requires { longest_answer ≤ length out.old }
    ensures { (result ≡ length (told_log told)) × (out.new ≡ over (told_log told) out.old) }
{
    let Some(p) = told.departed else {
        return 0;
    };
    let reply = Reply::Departed {
        connection: low(p.connection),
        tag: p.tag,
        arrival: p.arrival,
        eligibility: p.eligibility,
        finish: both::clock_of(told.kept),
    };
    answers::write(Some(reply), out)
}

// k ticks of those left are passed over.
fn pass_over(at: u32, h: Kept, asked: u16, left: u16, k: u16) -> Stepped
    requires { (k ≤ left) × (kept_clock h + k ≤ clock_end) }
    ensures { (t : Tables) → result ≡ record { cursor = cursor_at at (Ticking asked (left - k)) (kept_of (passed (view h t) k)); used = 0; wrote = 0; status = GoOn } }
{
    let later = both::quiet::pass_over(h, k);
    let rest = left - k;
    Stepped {
        cursor: Cursor {
            at,
            phase: Phase::Ticking { asked, left: rest },
            line: later,
        },
        used: 0,
        wrote: 0,
        status: Status::GoOn,
    }
}

// One tick of those left: done, or refused.
fn one_tick(at: u32, h: Kept, asked: u16, left: u16, t: &mut Lent, out: &mut [u8]) -> Stepped
    requires { (sound_kept h (lent t.old) ≡ true) × (longest_answer ≤ length out.old) × (left ≡ 0 → ⊥) }
    ensures makes { Makes (one_tick at asked left (view h (lent t.old))) result (lent t.new) 0 out.old out.new }
    ensures same_slices { SameSlices t.new t.old }
{
    let told = both::tick(h, t.members, t.places, t.notices);
    let then = told.kept;
    if told.verdict != 0 {
        let reply = Reply::Ticked {
            verdict: low(told.verdict),
            ticks: asked.saturating_sub(left),
        };
        return answered(at, then, 0, reply, out);
    }
    let wrote = put_departure(told, out);
    let rest = left - 1;
    Stepped {
        cursor: Cursor {
            at,
            phase: Phase::Ticking { asked, left: rest },
            line: then,
        },
        used: 0,
        wrote,
        status: Status::GoOn,
    }
}

// A step of a `TK` of which `left` of `asked` ticks are still to run.
pub(crate) fn tick_step(
    at: u32,
    h: Kept,
    asked: u16,
    left: u16,
    t: &mut Lent,
    out: &mut [u8],
) -> Stepped
    requires { (sound_kept h (lent t.old) ≡ true) × (longest_answer ≤ length out.old) }
    ensures makes { Makes (tick_next at asked left (view h (lent t.old))) result (lent t.new) 0 out.old out.new }
    ensures same_slices { SameSlices t.new t.old }
{
    if left == 0 {
        let reply = Reply::Ticked {
            verdict: all_done_verdict(h, t, asked),
            ticks: asked,
        };
        return answered(at, h, 0, reply, out);
    }
    let k = quiet_left(h, t, left);
    if k != 0 {
        return pass_over(at, h, asked, left, k);
    }
    one_tick(at, h, asked, left, t, out)
}

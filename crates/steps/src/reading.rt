// A step where a record is read, and what it asks is done.
ghost use Rattle.std.specs.Prelude.{◌≡◌, true, not, ◌&&◌, ◌-◌, ◌≤◌, ◌<◌, eqb, ltb, length};
ghost use Rattle.rules.specs.Limits.{beyond_32_bits};
ghost use Rattle.both.specs.View.{view, sound_kept};
ghost use Rattle.fields.specs.Formats.{over};
ghost use Rattle.traces.specs.Trace.{longest_record};
ghost use Rattle.answers.specs.declared.Reply.TheVariants.{Broken};
ghost use Rattle.answers.specs.Answers.{answer_bytes, longest_answer};
ghost use Rattle.answer_log.specs.Log.{trace_limit, asks, read_at, taken};
ghost use Rattle.steps.specs.declared.Phase.TheVariants.{Ticking, Finished};
ghost use Rattle.steps.specs.declared.Status.TheVariants.{GoOn, Done};
ghost use Rattle.steps.specs.Steps.{asked_next, read_next};
ghost use Rattle.steps.specs.Tie.{lent, SameSlices, cursor_at, link_answer, admission_answer, close_answer, offer_answer, notice_answer, Makes};

use super::asking::{Wanted, asked_by};
use super::{Cursor, Lent, Phase, Status, Stepped, answered, waits};
use answer_log::TRACE_LIMIT;
use answers::{Reply, low};
use both::{Kept, Replied};
use traces::{LONGEST_RECORD, Record};

// The record that the bytes start with, at offset `at` of the trace, and how many bytes it takes: none where it is malformed, or would end beyond the limit.
fn read_at(s: &[u8], at: u32) -> Option<(Record, usize)>
    ensures { (result ≡ read_at at s.now) × (taken result ≤ trace_limit - at) }
{
    let (what, taken) = traces::read(s)?;
    let place = at as usize;
    if TRACE_LIMIT < place || TRACE_LIMIT - place < taken {
        return None;
    }
    Some((what, taken))
}

// The answer to a link.
fn linked(told: Replied) -> Reply
    ensures { result ≡ link_answer told }
{
    Reply::Linked {
        verdict: low(told.verdict),
    }
}

// The answer to an admission.
fn admitted(told: Replied) -> Reply
    requires { told.short.units < beyond_32_bits }
    ensures { result ≡ admission_answer told }
{
    let short = told.short;
    Reply::Admitted {
        verdict: low(told.verdict),
        connection: low(told.number),
        level: low(short.level),
        units: short.units as u32,
    }
}

// The answer to a close.
fn closed(told: Replied) -> Reply
    ensures { result ≡ close_answer told }
{
    Reply::Closed {
        verdict: low(told.verdict),
    }
}

// The answer to an offer.
fn offered(told: Replied) -> Reply
    ensures { result ≡ offer_answer told }
{
    Reply::Offered {
        verdict: low(told.verdict),
        eligibility: told.number,
    }
}

// The answer to a notice.
fn noticed(told: Replied) -> Reply
    ensures { result ≡ notice_answer told }
{
    Reply::Noticed {
        verdict: low(told.verdict),
        eligibility: told.number,
    }
}

// A malformed record: `ER` with its offset, and nothing more.
fn broken_step(at: u32, h: Kept, out: &mut [u8]) -> Stepped
    requires { longest_answer ≤ length out.old }
    ensures { (result ≡ record { cursor = cursor_at at Finished h; used = 0; wrote = length (answer_bytes (Broken at)); status = Done }) × (out.new ≡ over (answer_bytes (Broken at)) out.old) }
{
    let wrote = answers::write(Some(Reply::Broken { offset: at }), out);
    Stepped {
        cursor: Cursor {
            at,
            phase: Phase::Finished,
            line: h,
        },
        used: 0,
        wrote,
        status: Status::Done,
    }
}

// `TK`: its ticks begin.
fn begin_ticks(h: Kept, ticks: u16, at: u32, used: usize) -> Stepped
    ensures { result ≡ record { cursor = cursor_at at (Ticking ticks ticks) h; used = used; wrote = 0; status = GoOn } }
{
    Stepped {
        cursor: Cursor {
            at,
            phase: Phase::Ticking {
                asked: ticks,
                left: ticks,
            },
            line: h,
        },
        used,
        wrote: 0,
        status: Status::GoOn,
    }
}

// A record of so many bytes, read at offset `at`: its call is made and answered, or its ticks begin.
fn record_step(what: Record, used: usize, at: u32, h: Kept, t: &mut Lent, out: &mut [u8]) -> Stepped
    requires { (sound_kept h (lent t.old) ≡ true) × (longest_answer ≤ length out.old) × (used ≤ trace_limit - at) }
    ensures makes { Makes (asked_next (asks what) used at (view h (lent t.old))) result (lent t.new) 0 out.old out.new }
    ensures same_slices { SameSlices t.new t.old }
{
    let to = at + used as u32;
    let members = &mut *t.members;
    let places = &mut *t.places;
    let notices = &mut *t.notices;
    match asked_by(what) {
        Wanted::ToLink(l) => {
            let told = both::link_levels(h, members, places, notices, l);
            answered(to, told.kept, used, linked(told), out)
        }
        Wanted::ToFrame(l) => {
            let told = both::link_frames(h, members, places, notices, l);
            answered(to, told.kept, used, linked(told), out)
        }
        Wanted::ToAdmit(x) => {
            let told = both::admit_level(h, members, places, notices, x);
            answered(to, told.kept, used, admitted(told), out)
        }
        Wanted::ToShare(x) => {
            let told = both::admit_share(h, members, places, notices, x);
            answered(to, told.kept, used, admitted(told), out)
        }
        Wanted::ToClose(c) => {
            let told = both::close(h, members, places, notices, c);
            answered(to, told.kept, used, closed(told), out)
        }
        Wanted::ToOffer(p) => {
            let told = both::offer(
                h,
                members,
                places,
                notices,
                p.connection,
                p.len,
                p.tag,
                p.stamp,
            );
            answered(to, told.kept, used, offered(told), out)
        }
        Wanted::ToNotice(len, tag) => {
            let told = both::notice(h, members, places, notices, len, tag);
            answered(to, told.kept, used, noticed(told), out)
        }
        Wanted::ToTick(ticks) => begin_ticks(h, ticks, to, used),
    }
}

// Of a window of n bytes: the trace ends where it begins.
fn ends(n: usize, last: bool) -> bool
    ensures { result ≡ (last && eqb n 0) }
{
    last && n == 0
}

// Of a window of n bytes: the longest record may not be whole in it, and more is to come.
fn lacks(n: usize, last: bool) -> bool
    ensures { result ≡ (not last && ltb n longest_record) }
{
    !last && n < LONGEST_RECORD
}

// A step where a record is to be read, at offset `at`. The record is read and its step made in one place of the text, so that both are compiled into the loop of steps.
pub(crate) fn read_step(
    at: u32,
    h: Kept,
    t: &mut Lent,
    window: &[u8],
    last: bool,
    out: &mut [u8],
) -> Stepped
    requires { (sound_kept h (lent t.old) ≡ true) × (longest_answer ≤ length out.old) }
    ensures makes { Makes (read_next at (view h (lent t.old)) window.now last) result (lent t.new) 0 out.old out.new }
    ensures same_slices { SameSlices t.new t.old }
{
    if ends(window.len(), last) {
        return waits(at, Phase::Finished, h, Status::Done);
    }
    if lacks(window.len(), last) {
        return waits(at, Phase::Reading, h, Status::MoreBytes);
    }
    match read_at(window, at) {
        Some((what, used)) => record_step(what, used, at, h, t, out),
        None => broken_step(at, h, out),
    }
}

// Many ticks on a line that has been tested: stretch by stretch, quiet ticks at once, else one tick, up to the first departure, the last tick before one that is
// refused, or as many as are asked. Document 01, "One tick".
ghost use Rattle.std.specs.Prelude.{◌≡◌, true, cond, ◌+◌, ◌≤◌, ◌<◌, eqb};
ghost use Rattle.rules.specs.Limits.{clock_end, beyond_32_bits};
ghost use Rattle.tables.specs.Lent.{Tables, tables};
ghost use Rattle.both.specs.View.{view, kept_of, kept_clock, sound_kept, has_link};
ghost use Rattle.both.specs.Quiet.{passed};
ghost use Rattle.board.specs.Ticks.{run_ticks};
ghost use Rattle.board.specs.Stretch.{Gives, counted_told, undeparted, last_of, stretch};

use both::{Kept, Replied};
use line::Told;
use line::answers::say;
use rules::Short;

// As many ticks as are passed over at once.
const AT_ONCE: u16 = u16::MAX;

// k quiet ticks.
fn quiet(h: Kept, k: u16) -> Replied
    requires { kept_clock h + k ≤ clock_end }
    ensures { (t : Tables) → result ≡ undeparted 0 k (kept_of (passed (view h t) k)) }
{
    let then = both::quiet::pass_over(h, k);
    say(then, 0, k as u32)
}

// A tick, counted where it is done.
fn counted(told: Replied) -> Replied
    ensures { result ≡ counted_told told }
{
    Told {
        number: (told.verdict == 0) as u32,
        ..told
    }
}

// Some of the ticks that are left, which are not none: quiet ones, or one.
fn stretch(
    h: Kept,
    members: &mut [u32],
    places: &mut [u32],
    notices: &mut [u32],
    left: u32,
) -> Replied
    requires { sound_kept h (tables members.old places.old notices.old) ≡ true }
    ensures { Gives (stretch left (view h (tables members.old places.old notices.old))) result (tables members.new places.new notices.new) }
{
    let k = both::quiet::quiet_ticks(h, members, places, notices, left.min(AT_ONCE as u32) as u16);
    if k != 0 {
        return quiet(h, k);
    }
    counted(both::tick(h, members, places, notices))
}

// The verdict of many ticks of which `done` are done: a tick that is refused then is not told.
fn told_verdict(verdict: u32, done: u32) -> u32
    ensures { result ≡ cond (eqb done 0) verdict 0 }
{
    if done == 0 {
        return verdict;
    }
    0
}

// The last stretch, behind the ticks that were done before it.
fn last_of(told: Replied, done: u32) -> Replied
    requires { done + told.number < beyond_32_bits }
    ensures { result ≡ last_of told done }
{
    Told {
        verdict: told_verdict(told.verdict, done),
        number: done + told.number,
        short: Short::default(),
        ..told
    }
}

// The verdict where no tick is asked: 2 where no link is set.
fn resting(h: Kept) -> u32
    ensures { result ≡ cond (has_link h) 0 2 }
{
    if both::is_set(h) {
        return 0;
    }
    2
}

// Many ticks.
pub(crate) fn run_ticks(
    h: Kept,
    members: &mut [u32],
    places: &mut [u32],
    notices: &mut [u32],
    n: u32,
) -> Replied
    requires { sound_kept h (tables members.old places.old notices.old) ≡ true }
    ensures { Gives (run_ticks n (view h (tables members.old places.old notices.old))) result (tables members.new places.new notices.new) }
{
    if n == 0 {
        return say(h, resting(h), 0);
    }
    let mut line = h;
    let mut done: u32 = 0;
    // kept: the new form is no plainer: a turn does as many ticks as its stretch tells
    while done < n {
        let told = stretch(line, members, places, notices, n - done);
        if (told.verdict != 0) | told.departed.is_some() {
            return last_of(told, done);
        }
        line = told.kept;
        done += told.number;
    }
    say(line, 0, n)
}

// Quiet ticks of the second discipline: how many of those asked for can be passed over at once, and the line after them. Document 02, R-13.
ghost use Rattle.std.specs.Prelude.{◌≡◌, true, ◌+◌, ◌-◌, ◌≤◌};
ghost use Rattle.std.proofs.Math.Option.{none};
ghost use Rattle.rules.specs.Limits.{clock_end};
ghost use Rattle.rules.specs.Words.{Pairs};
ghost use Rattle.tables.specs.Places.{rows};
ghost use Rattle.tables.specs.Notices.{notices_in};
ghost use Rattle.line.specs.Quiet.{eligible_from, quiet_for};
ghost use Rattle.framed_state.specs.View.{Tables, tables, view, frames_of, sound_frames};
ghost use Rattle.framed_service.specs.Ready.{NotAfter};
ghost use Rattle.framed_service.specs.Quiet.{passed, quiet_ticks};

use framed_state::Frames;
use limits::CLOCK_END;

// How long no packet becomes eligible: up to the clock's end, and not at all where one is. Eligibilities never fall in row order, so that the first row tells.
fn wait(places: &[u32], clock: u32) -> u32
    requires { Pairs NotAfter (rows places.now) }
    ensures { result ≡ eligible_from (rows places.now) - clock }
{
    if tables::none(places) {
        return CLOCK_END.saturating_sub(clock);
    }
    let first = tables::row(places, 0);
    first.eligibility.min(CLOCK_END).saturating_sub(clock)
}

// The ticks in which nothing starts and nothing departs, by the line, the places and the notices.
fn quiet_for(h: Frames, places: &[u32], notices: &[u32]) -> u32
    requires { Pairs NotAfter (rows places.now) }
    ensures { result ≡ quiet_for h.wire.to_go h.wire.silent (rows places.now) (notices_in notices.now) none h.clock }
{
    if !line::quiet::awaits(h.wire, notices) {
        return line::quiet::taken_for(h.wire);
    }
    wait(places, h.clock)
}

// Of `left` ticks those that can be passed over at once.
pub fn quiet_ticks(h: Frames, shares: &[u32], places: &[u32], notices: &[u32], left: u16) -> u16
    requires { sound_frames h (tables shares.now places.now notices.now) ≡ true }
    ensures { result ≡ quiet_ticks left (view h (tables shares.now places.now notices.now)) }
{
    if h.link.frame == 0 {
        return 0;
    }
    let rest = quiet_for(h, places, notices).min(CLOCK_END - h.clock);
    rest.min(left as u32) as u16
}

// The line k ticks on, where nothing starts and nothing departs in them.
pub fn pass_over(h: Frames, k: u16) -> Frames
    requires { h.clock + k ≤ clock_end }
    ensures { (t : Tables) → result ≡ frames_of (passed (view h t) k) }
{
    line::quiet::pass_over(h, k)
}

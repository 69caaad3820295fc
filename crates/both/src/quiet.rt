// Quiet ticks of the discipline that is set: how many of those asked for can be passed over at once, and what is kept after them.
ghost use Rattle.std.specs.Prelude.{◌≡◌, true, ◌+◌, ◌≤◌};
ghost use Rattle.rules.specs.Limits.{clock_end};
ghost use Rattle.tables.specs.Lent.{Tables, tables};
ghost use Rattle.both.specs.View.{view, kept_of, kept_clock, sound_kept};
ghost use Rattle.both.specs.Quiet.{passed, quiet_ticks};

use super::Kept;
use limits::SHARES;

// Of `left` ticks those that can be passed over at once.
pub fn quiet_ticks(h: Kept, members: &[u32], places: &[u32], notices: &[u32], left: u16) -> u16
    requires { sound_kept h (tables members.now places.now notices.now) ≡ true }
    ensures { result ≡ quiet_ticks left (view h (tables members.now places.now notices.now)) }
{
    if h.frames.link.frame != 0 {
        return framed_service::quiet::quiet_ticks(
            h.frames,
            &members[..SHARES],
            places,
            notices,
            left,
        );
    }
    service::quiet::quiet_ticks(h.hub, members, places, notices, left)
}

// What is kept k ticks on, where nothing starts and nothing departs in them.
pub fn pass_over(h: Kept, k: u16) -> Kept
    requires { kept_clock h + k ≤ clock_end }
    ensures { (t : Tables) → result ≡ kept_of (passed (view h t) k) }
{
    if h.frames.link.frame != 0 {
        return Kept {
            hub: hub::fresh_hub(),
            frames: framed_service::quiet::pass_over(h.frames, k),
        };
    }
    Kept {
        hub: service::quiet::pass_over(h.hub, k),
        frames: framed_hub::fresh_frames(),
    }
}

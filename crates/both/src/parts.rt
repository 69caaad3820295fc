// Parts of the soundness test of a line of either discipline, and the answers of the two disciplines as replies.
ghost use Rattle.std.specs.Prelude.{◌≡◌};
ghost use Rattle.both.specs.View.{unused_hub, unused_frames, members_framed};
ghost use Rattle.both.specs.Replied.{of_told, of_said};

use super::{Kept, Replied};
use framed_state::{Frames, Said};
use limits::SHARES;
use line::answers::keeping;
use state::{Hub, Told};

// Everything of a hub is zero.
pub(crate) fn unused_hub(h: Hub) -> bool
    ensures { result ≡ unused_hub h }
{
    let line = (h.wire.serving == 0) & ((h.wire.to_go == 0) & (h.wire.silent == 0));
    (h.link.levels == 0) & (sound::blank_ok(h.link) & ((h.clock == 0) & line))
}

// Everything of the frames is zero.
pub(crate) fn unused_frames(h: Frames) -> bool
    ensures { result ≡ unused_frames h }
{
    let line = (h.wire.serving == 0) & ((h.wire.to_go == 0) & (h.wire.silent == 0));
    let link = (h.link.silence == 0) & ((h.clock == 0) & line);
    (h.link.frame == 0) & ((h.link.largest == 0) & link)
}

// The table of connections has its length, and zeros behind the table of shares.
pub(crate) fn members_framed(members: &[u32]) -> bool
    ensures { result ≡ members_framed members.now }
{
    if members.len() != limits::MEMBERS {
        return false;
    }
    limits::zero_from(members, SHARES)
}

// What the discipline of levels told.
pub(crate) fn by_levels(h: Kept, told: Told) -> Replied
    ensures { result ≡ of_told h told }
{
    keeping(
        told,
        Kept {
            hub: told.kept,
            ..h
        },
    )
}

// What the discipline of frames said.
pub(crate) fn by_frames(h: Kept, said: Said) -> Replied
    ensures { result ≡ of_said h said }
{
    keeping(
        said,
        Kept {
            frames: said.kept,
            ..h
        },
    )
}

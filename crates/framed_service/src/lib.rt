// One tick of the second discipline's line: the choice, which looks at the first row only, the steps of the line that both share, and the clock. Document 02, R-13.
#![tactic(auto)]

pub mod quiet; // quiet.rt: ticks in which nothing starts and nothing departs

ghost use Rattle.std.specs.Prelude.{◌≡◌, true};
ghost use Rattle.std.proofs.Math.Option.{none};
ghost use Rattle.rules.specs.Words.{Pairs};
ghost use Rattle.rules.specs.Service.{begun};
ghost use Rattle.frames.specs.Model.{tick};
ghost use Rattle.frames.specs.Service.{first_eligible};
ghost use Rattle.frames.specs.Calls.{verdict};
ghost use Rattle.tables.specs.Places.{rows};
ghost use Rattle.tables.specs.Notices.{notices_formed};
ghost use Rattle.tables.specs.Options.{option_of};
ghost use Rattle.line.specs.Wires.{line_in, wire_of};
ghost use Rattle.framed_state.specs.View.{tables, view, sound_frames};
ghost use Rattle.framed_state.specs.Does.{Does};
ghost use Rattle.framed_service.specs.Ready.{NotAfter};

use framed_state::{Frames, Said};
use line::Wire;
use rules::Packet;

// The packet that the line takes next, if one is eligible. Eligibilities never fall in row order, so that it is the first row or none.
fn choose(places: &[u32], clock: u32) -> Option<Packet>
    requires { Pairs NotAfter (rows places.now) }
    ensures { result ≡ option_of (first_eligible clock (rows places.now)) }
{
    if tables::none(places) {
        return None;
    }
    let first = tables::row(places, 0);
    if clock < first.eligibility {
        return None;
    }
    Some(first)
}

// Step 1: an idle line takes the chosen packet, else the first notice; nothing stands by. While something is in service or the silence runs no row is looked at.
fn start(h: Frames, places: &[u32], notices: &[u32]) -> Wire
    requires { Pairs NotAfter (rows places.now) × (notices_formed notices.now ≡ true) }
    ensures { result ≡ wire_of (begun (first_eligible h.clock (rows places.now)) none (line_in h.wire places.now notices.now)) }
{
    if !line::is_idle(h.wire) {
        return h.wire;
    }
    line::begin(h.wire, choose(places, h.clock), None, notices)
}

// A tick that is done: the three steps, on a line that is ready for them.
pub fn run_on(h: Frames, shares: &[u32], places: &mut [u32], notices: &mut [u32]) -> Said
    requires { (sound_frames h (tables shares.now places.old notices.old) ≡ true) × (verdict tick (view h (tables shares.now places.old notices.old)) ≡ 0) }
    ensures { Does tick h (tables shares.now places.old notices.old) result (tables shares.now places.new notices.new) }
{
    let w = start(h, places, notices);
    let x = line::send(w, h.link.silence, places, notices);
    line::answers::pass(h, x)
}

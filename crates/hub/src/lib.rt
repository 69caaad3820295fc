// The hub of one output line: link, admit, offer, offer with a stamp, notice, close, tick. Any hub value and any tables: an answer or a numbered refusal; a refused call changes nothing.
// The caller keeps a `Hub`, a table of connections of 5,002 numbers, a places table of 10,240 and a table of notices of 320, all zero at first, and hands them
// to every call.
#![tactic(auto)]

ghost use Rattle.std.specs.Prelude.{◌≡◌};
ghost use Rattle.std.proofs.Math.Option.{none, some};
ghost use Rattle.rules.specs.Model.{fresh, link, admit, offer, notice, close, tick};
ghost use Rattle.state.specs.View.{tables, hub_of};
ghost use Rattle.state.specs.Does.{Does};

use limits::NO_CONNECTION;
use line::Wire;
use rules::{Connection, Link};
use state::{Hub, Told, say};

// How many numbers the caller lends: as the table of connections, as the places table, as the table of notices.
pub const CONNECTIONS: usize = limits::MEMBERS;

pub const PLACES: usize = limits::PLACES;

pub const NOTICES: usize = limits::NOTICES;

// The fresh hub; its three tables start as zeros.
pub fn fresh_hub() -> Hub
    ensures { result ≡ hub_of fresh }
{
    Hub {
        link: Link::default(),
        clock: 0,
        wire: Wire::default(),
    }
}

// kept: what may not change: that a call leaves a table is said by its `&`, and `Does` names the same slice before and after, so the tables are three parameters

// Set the link: levels, the largest packet, the silence after each packet, whether packets may go early (0 or 1), a delay bound for each level, and for the finer test a window for each level or none (all 0). Verdicts 0, 1, 3, 4.
pub fn link(h: Hub, members: &[u32], places: &[u32], notices: &[u32], l: Link) -> Told
    ensures { Does (link l) h (tables members.now places.now notices.now) result (tables members.now places.now notices.now) }
{
    if !sound::is_sound(h, members, places, notices) {
        return say(h, 1, 0);
    }
    calls::link_tested(h, members, places, notices, l)
}

// Admit a connection: its number, or 255. Verdicts 0, 1, 2, 5 to 9.
pub fn admit(h: Hub, members: &mut [u32], places: &[u32], notices: &[u32], x: Connection) -> Told
    ensures { Does (admit x) h (tables members.old places.now notices.now) result (tables members.new places.now notices.now) }
{
    if !sound::is_sound(h, members, places, notices) {
        return say(h, 1, NO_CONNECTION);
    }
    calls::admit_tested(h, members, places, notices, x)
}

// Offer a packet of a connection regulated by its gap: its eligibility, or 0. Verdicts 0, 1, 2, 10 to 13, 18.
pub fn offer(
    h: Hub,
    members: &mut [u32],
    places: &mut [u32],
    notices: &[u32],
    c: u32,
    len: u32,
    tag: u32,
) -> Told
    ensures { Does (offer c len tag none) h (tables members.old places.old notices.now) result (tables members.new places.new notices.now) }
{
    if !sound::is_sound(h, members, places, notices) {
        return say(h, 1, 0);
    }
    calls::offer_tested(h, members, places, notices, c, len, tag, None)
}

// Offer a packet of a connection by stamps, with its eligibility at the hub before: its eligibility here, or 0. Verdicts 0, 1, 2, 10 to 13, 17.
pub fn offer_stamped(
    h: Hub,
    members: &mut [u32],
    places: &mut [u32],
    notices: &[u32],
    c: u32,
    len: u32,
    tag: u32,
    stamp: u32,
) -> Told
    ensures { Does (offer c len tag (some stamp)) h (tables members.old places.old notices.now) result (tables members.new places.new notices.now) }
{
    if !sound::is_sound(h, members, places, notices) {
        return say(h, 1, 0);
    }
    calls::offer_tested(h, members, places, notices, c, len, tag, Some(stamp))
}

// Offer a notice: its eligibility, which is its arrival, or 0. Verdicts 0, 1, 2, 11, 13, 15.
pub fn notice(
    h: Hub,
    members: &[u32],
    places: &[u32],
    notices: &mut [u32],
    len: u32,
    tag: u32,
) -> Told
    ensures { Does (notice len tag) h (tables members.now places.now notices.old) result (tables members.now places.now notices.new) }
{
    if !sound::is_sound(h, members, places, notices) {
        return say(h, 1, 0);
    }
    calls::notice_tested(h, members, places, notices, len, tag)
}

// Close a connection: its number is freed, at once or by the tick with which its charge is over. Verdicts 0, 1, 2, 10, 16.
pub fn close(h: Hub, members: &mut [u32], places: &[u32], notices: &[u32], c: u32) -> Told
    ensures { Does (close c) h (tables members.old places.now notices.now) result (tables members.new places.now notices.now) }
{
    if !sound::is_sound(h, members, places, notices) {
        return say(h, 1, 0);
    }
    calls::close_tested(h, members, places, notices, c)
}

// One tick: the packet that departed, with finish at the hub's clock then, or none. Verdicts 0, 1, 2, 13.
pub fn tick(h: Hub, members: &mut [u32], places: &mut [u32], notices: &mut [u32]) -> Told
    ensures { Does tick h (tables members.old places.old notices.old) result (tables members.new places.new notices.new) }
{
    if !sound::is_sound(h, members, places, notices) {
        return say(h, 1, 0);
    }
    calls::tick_tested(h, members, places, notices)
}

// The line that both disciplines share: what a caller keeps of it between the calls, what a call answers, what an idle line takes, and a unit of what is in
// service. Document 01, "One tick", steps 1 and 2; document 02, R-1, R-4, R-11 and R-13.
#![tactic(auto)]

pub mod answers; // answers.rt: an answer with no packet, and the answer of a tick
pub mod quiet; // quiet.rt: how long nothing starts and nothing departs

ghost use Rattle.std.specs.Prelude.{◌≡◌, true, List, [], ℕ};
ghost use Rattle.std.proofs.Math.Option.{none};
ghost use Rattle.rules.specs.Limits.{notice_number};
ghost use Rattle.rules.specs.Service.{free_line, begun, sends, sent};
ghost use Rattle.tables.specs.Notices.{notices_formed};
ghost use Rattle.tables.specs.Options.{option_in};
ghost use Rattle.line.specs.Wires.{line_in, on_wire, wire_of, takes_up, idle, sent_of, Leaves, InPlace};

use limits::NOTICE_NUMBER;
use rules::{Packet, Short};

// What is on the line: the number in service, its units to go, and the silence still to run. While `to_go` is 0 nothing is in service, and `serving` is 0 too.
#[derive(Clone, Copy, Default)]
pub struct Wire {
    pub serving: u32,
    pub to_go: u32,
    pub silent: u32,
}

// The part of a state that no table holds, whatever the discipline: its link, its clock, and what is on its line.
#[derive(Clone, Copy)]
pub struct Hub<L> {
    pub link: L,
    pub clock: u32,
    pub wire: Wire,
}

// The answer of a call, and what is kept after it. `short` is by how much an admission refused for it is over, else zeros.
#[derive(Clone, Copy)]
pub struct Told<H> {
    pub verdict: u32,
    pub number: u32,
    pub short: Short,
    pub departed: Option<Packet>,
    pub kept: H,
}

// What a unit leaves: the departed packet, if one is, and the line then.
#[derive(Clone, Copy)]
pub struct Sent {
    pub departed: Option<Packet>,
    pub wire: Wire,
}

// The wire of three numbers.
pub fn on_wire(serving: u32, to_go: u32, silent: u32) -> Wire
    ensures { result ≡ on_wire serving to_go silent }
{
    Wire {
        serving,
        to_go,
        silent,
    }
}

// Nothing is in service, and no silence is left to run.
pub fn is_idle(w: Wire) -> bool
    ensures { result ≡ idle w }
{
    (w.to_go == 0) & (w.silent == 0)
}

// An idle line takes a packet whole.
fn taken(p: Packet) -> Wire
    ensures { result ≡ takes_up (p.connection, p.len) }
{
    on_wire(p.connection, p.len, 0)
}

// The line with nothing in service.
fn free(silent: u32) -> Wire
    ensures { result ≡ wire_of (free_line [] [] silent) }
{
    on_wire(0, 0, silent)
}

// Step 1: an idle line takes the chosen packet, else the first notice, else the packet that stands by. Nothing interrupts what is in service, and nothing
// starts before the silence has run.
pub fn begin(w: Wire, chosen: Option<Packet>, early: Option<Packet>, notices: &[u32]) -> Wire
    requires { notices_formed notices.now ≡ true }
    ensures { (t : List ℕ) → result ≡ wire_of (begun (option_in chosen) (option_in early) (line_in w t notices.now)) }
{
    if !is_idle(w) {
        return w;
    }
    if let Some(p) = chosen {
        return taken(p);
    }
    if !tables::none(notices) {
        let first = tables::row(notices, 0);
        return taken(first);
    }
    match early {
        Some(p) => taken(p),
        None => free(0),
    }
}

// Step 2 at a last unit of a notice: it departs, its row is removed, and the link's silence is still to run.
fn depart_notice(w: Wire, silence: u32, places: &[u32], notices: &mut [u32]) -> Sent
    requires { InPlace w places.now notices.old × (w.to_go ≡ 1) × (w.serving ≡ notice_number) }
    ensures { Leaves (sends silence sent (line_in w places.now notices.old) 1) result places.now notices.new }
{
    let waiting = tables::count(notices);
    let p = tables::row(notices, 0);
    tables::remove(notices, waiting, 0);
    let idle = free(silence);
    Sent {
        departed: Some(p),
        wire: idle,
    }
}

// Step 2 at a last unit of a packet: the same.
fn depart(w: Wire, silence: u32, places: &mut [u32], notices: &[u32]) -> Sent
    requires { InPlace w places.old notices.now × (w.to_go ≡ 1) × (w.serving ≡ notice_number → ⊥) }
    ensures { Leaves (sends silence sent (line_in w places.old notices.now) 1) result places.new notices.now }
{
    let held = tables::count(places);
    let i = tables::find(places, held, w.serving);
    let p = tables::row(places, i);
    tables::remove(places, held, i);
    let freed = free(silence);
    Sent {
        departed: Some(p),
        wire: freed,
    }
}

// Nothing departs.
fn none_gone(wire: Wire) -> Sent
    ensures { result ≡ sent_of none (line_in wire [] []) }
{
    Sent {
        departed: None,
        wire,
    }
}

// Step 2: a unit of what is in service goes, else a tick of the silence. With its last unit a packet or a notice departs, and the link's silence is still to run.
pub fn send(w: Wire, silence: u32, places: &mut [u32], notices: &mut [u32]) -> Sent
    requires { InPlace w places.old notices.old }
    ensures { Leaves (sends silence sent (line_in w places.old notices.old) w.to_go) result places.new notices.new }
{
    if w.to_go == 0 {
        return none_gone(free(w.silent.saturating_sub(1)));
    }
    if w.to_go == 1 {
        if w.serving == NOTICE_NUMBER {
            return depart_notice(w, silence, places, notices);
        }
        return depart(w, silence, places, notices);
    }
    none_gone(Wire {
        to_go: w.to_go - 1,
        ..w
    })
}

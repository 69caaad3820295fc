// A caller of the hub, to read and to copy: a link, four lines, ten offers and a notice, a close, 72 ticks. It prints each answer and each departure; its
// README.md works out by hand what they must be. docs/CALLERS.md has every type and every call.
#![tactic(auto)]

use rules::{Connection, Link, Packet};
use state::{Hub, Told};
use std::io::Write;

// What the caller keeps beside a hub: three tables, zeros at first. Only the hub's calls write to them: each call is handed the hub and gives one back, and is
// lent the tables, `&mut` where it may change them.
type Connections = [u32; hub::CONNECTIONS];

type Places = [u32; hub::PLACES];

type Notices = [u32; hub::NOTICES];

fn write<W: Write>(out: &mut W, text: &[u8], n: u64) {
    let _ = streams::write_all(out, text);
    let _ = streams::print_decimal(out, n);
}

// A packet that has left. Its finish is the clock after the tick.
fn show_departure<W: Write>(out: &mut W, p: Packet, finish: u32) {
    write(out, b"left: connection ", p.connection as u64);
    write(out, b", tag ", p.tag as u64);
    write(out, b", arrival ", p.arrival as u64);
    write(out, b", eligibility ", p.eligibility as u64);
    write(out, b", finish ", finish as u64);
    let _ = streams::write_all(out, b"\n");
}

// What a call answered. Verdict 0: it is done, and `number` is the connection's number after an admission, the eligibility after an offer or a notice. Any other
// verdict: nothing has changed, and with an 8 `short` names the level that is short and by how many units. The hub that comes with it goes to the next call.
fn show<W: Write>(out: &mut W, call: &[u8], r: Told) -> Hub {
    let short = r.short;
    let _ = streams::write_all(out, call);
    write(out, b": verdict ", r.verdict as u64);
    write(out, b", number ", r.number as u64);
    if short.level != 0 {
        write(out, b", short at level ", short.level as u64);
        write(out, b" by ", short.units);
    }
    let _ = streams::write_all(out, b"\n");
    r.kept
}

// So many ticks, one call each. A tick answers with at most one packet, and is refused only where no link is set or the clock has ended.
fn ticks<W: Write>(
    out: &mut W,
    before: Hub,
    members: &mut Connections,
    places: &mut Places,
    notices: &mut Notices,
    n: u32,
) -> Hub {
    let mut h = before;
    for _ in 0..n {
        let r = hub::tick(h, members, places, notices);
        h = r.kept;
        if let Some(p) = r.departed {
            show_departure(out, p, h.clock);
        }
    }
    h
}

// An offer, and its answer shown: a connection, a length, a tag. What is in a packet stays with the caller, who finds it again by the tag.
fn offer<W: Write>(
    out: &mut W,
    h: Hub,
    members: &mut Connections,
    places: &mut Places,
    notices: &Notices,
    c: u32,
    len: u32,
    tag: u32,
) -> Hub {
    show(
        out,
        b"offer",
        hub::offer(h, members, places, notices, c, len, tag),
    )
}

// An admission, and its answer shown.
fn admit<W: Write>(
    out: &mut W,
    h: Hub,
    members: &mut Connections,
    places: &Places,
    notices: &Notices,
    line: Connection,
) -> Hub {
    show(out, b"admit", hub::admit(h, members, places, notices, line))
}

// A link, and lines that ask to be admitted. A line says its level, the gap that it keeps between packets and their largest size; one that sends in bursts also
// an averaging window and an average gap, and no window has more packets than that gap goes into it; for the others both are 0. Kind and allowance are 0 but for
// lines from another hub, below. The number that a line is given names it in its offers.
fn open<W: Write>(
    out: &mut W,
    fresh: Hub,
    members: &mut Connections,
    places: &Places,
    notices: &Notices,
    urgent: Connection,
) -> Hub {
    // packets of up to 4 units, a tick of silence after each, none before it is eligible; bound 10 for level 1, which is the most urgent, 40 for level 2, and 0 past the levels;
    // no windows: document 01's level test
    let line = Link {
        levels: 2,
        largest: 4,
        silence: 1,
        early: 0,
        bounds: [10, 40, 0, 0, 0, 0, 0, 0],
        windows: [0, 0, 0, 0, 0, 0, 0, 0],
    };
    // two packets in each 20 ticks, which may follow each other after 2
    let camera = Connection {
        level: 2,
        gap: 2,
        size: 2,
        window: 20,
        average: 10,
        kind: 0,
        allowance: 0,
    };
    let mut h = show(
        out,
        b"link",
        hub::link(fresh, members, places, notices, line),
    );
    h = admit(out, h, members, places, notices, urgent);
    h = admit(out, h, members, places, notices, camera);
    admit(out, h, members, places, notices, urgent)
}

// Packets of both lines, and a notice, which has no connection.
fn send<W: Write>(
    out: &mut W,
    opened: Hub,
    members: &mut Connections,
    places: &mut Places,
    notices: &mut Notices,
) -> Hub {
    let mut h = offer(out, opened, members, places, notices, 1, 2, 100);
    h = offer(out, h, members, places, notices, 1, 2, 101);
    h = offer(out, h, members, places, notices, 1, 2, 102);
    h = ticks(out, h, members, places, notices, 1);
    h = offer(out, h, members, places, notices, 0, 3, 90);
    h = offer(out, h, members, places, notices, 0, 3, 91);
    h = show(
        out,
        b"notice",
        hub::notice(h, members, places, notices, 2, 7),
    );
    h = ticks(out, h, members, places, notices, 7);
    h = offer(out, h, members, places, notices, 0, 4, 92);
    ticks(out, h, members, places, notices, 14)
}

// A bed is emptied, and its line is closed. What it has sent counts on until the clock reaches its last eligibility plus the largest bound; the tick that
// reaches it frees the number, and the next line that is admitted gets the lowest free one and starts fresh.
fn reopen<W: Write>(
    out: &mut W,
    sent: Hub,
    members: &mut Connections,
    places: &mut Places,
    notices: &mut Notices,
    urgent: Connection,
) -> Hub {
    let mut h = show(out, b"close", hub::close(sent, members, places, notices, 0));
    h = admit(out, h, members, places, notices, urgent);
    h = ticks(out, h, members, places, notices, 29);
    h = admit(out, h, members, places, notices, urgent);
    h = offer(out, h, members, places, notices, 0, 4, 93);
    ticks(out, h, members, places, notices, 4)
}

// A line that comes from another hub: each of its offers brings the packet's eligibility there, its stamp, and it is eligible here the line's allowance later,
// which is the other hub's bound and the delay of the wire between them. An offer without a stamp is not this line's, and a stamp lies not in the future.
fn onward<W: Write>(
    out: &mut W,
    reopened: Hub,
    members: &mut Connections,
    places: &mut Places,
    notices: &mut Notices,
) -> Hub {
    let floor = Connection {
        level: 2,
        gap: 40,
        size: 2,
        window: 0,
        average: 0,
        kind: 1,
        allowance: 30,
    };
    let mut h = admit(out, reopened, members, places, notices, floor);
    let r = hub::offer_stamped(h, members, places, notices, 2, 2, 200, 40);
    h = show(out, b"offer with stamp 40", r);
    h = offer(out, h, members, places, notices, 2, 2, 201);
    let r = hub::offer_stamped(h, members, places, notices, 2, 2, 202, 56);
    h = show(out, b"offer with stamp 56", r);
    ticks(out, h, members, places, notices, 17)
}

fn main(rt: HostRuntime) {
    let mut out = rt.stdout();
    let mut members: Connections = [0; hub::CONNECTIONS];
    let mut places: Places = [0; hub::PLACES];
    let mut notices: Notices = [0; hub::NOTICES];
    let urgent = Connection {
        level: 1,
        gap: 10,
        size: 4,
        window: 0,
        average: 0,
        kind: 0,
        allowance: 0,
    };
    let mut h = open(
        &mut out,
        hub::fresh_hub(),
        &mut members,
        &places,
        &notices,
        urgent,
    );
    h = send(&mut out, h, &mut members, &mut places, &mut notices);
    h = reopen(&mut out, h, &mut members, &mut places, &mut notices, urgent);
    h = onward(&mut out, h, &mut members, &mut places, &mut notices);
    write(&mut out, b"clock: ", h.clock as u64);
    let _ = streams::write_all(&mut out, b"\n");
}

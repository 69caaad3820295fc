// The six calls on a state that has been tested: same rules, no second test. A run that has tested once uses these.
#![tactic(auto)]

mod verdicts; // verdicts.rt: the verdict of each call

ghost use Rattle.std.specs.Prelude.{◌≡◌, true};
ghost use Rattle.rules.specs.Model.{link, admit, offer, notice, close, tick};
ghost use Rattle.rules.specs.Calls.{verdict};
ghost use Rattle.tables.specs.Options.{option_in};
ghost use Rattle.state.specs.View.{tables, view, sound_hub};
ghost use Rattle.state.specs.Does.{Does};

use limits::NO_CONNECTION;
use rules::{Connection, Link, Packet};
use state::{Hub, Told, say};

// A link is set, once.
pub fn link_tested(h: Hub, members: &[u32], places: &[u32], notices: &[u32], l: Link) -> Told
    requires { sound_hub h (tables members.now places.now notices.now) ≡ true }
    ensures { Does (link l) h (tables members.now places.now notices.now) result (tables members.now places.now notices.now) }
{
    if let Err(why) = verdicts::link_verdict(h, members, places, notices, l) {
        return say(h, why.number(), 0);
    }
    say(Hub { link: l, ..h }, 0, 0)
}

// A tick that is done: its three steps, and then every number whose charge is over is freed.
fn run_on(h: Hub, members: &mut [u32], places: &mut [u32], notices: &mut [u32]) -> Told
    requires { (sound_hub h (tables members.old places.old notices.old) ≡ true) × (verdict tick (view h (tables members.old places.old notices.old)) ≡ 0) }
    ensures { Does tick h (tables members.old places.old notices.old) result (tables members.new places.new notices.new) }
{
    let told = service::run_tick(h, members, places, notices);
    // nobody is closed: the time of a charge is not asked for
    if connections::closing::first_charge(members) == 0 {
        return told;
    }
    let time = connections::closing::charge_time(h.link);
    let clock = told.kept.clock;
    connections::closing::sweep(members, time, clock);
    told
}

// One tick.
pub fn tick_tested(h: Hub, members: &mut [u32], places: &mut [u32], notices: &mut [u32]) -> Told
    requires { sound_hub h (tables members.old places.old notices.old) ≡ true }
    ensures { Does tick h (tables members.old places.old notices.old) result (tables members.new places.new notices.new) }
{
    if let Err(why) = verdicts::tick_verdict(h, members, places, notices) {
        return say(h, why.number(), 0);
    }
    run_on(h, members, places, notices)
}

// A connection asks to be admitted.
pub fn admit_tested(
    h: Hub,
    members: &mut [u32],
    places: &[u32],
    notices: &[u32],
    x: Connection,
) -> Told
    requires { sound_hub h (tables members.old places.now notices.now) ≡ true }
    ensures { Does (admit x) h (tables members.old places.now notices.now) result (tables members.new places.now notices.now) }
{
    let n = connections::used(members);
    let c = connections::free_number(members, n);
    if let Err(why) = verdicts::admit_verdict(h, members, places, notices, n, c, x) {
        return Told {
            short: why.short(),
            ..say(h, why.number(), NO_CONNECTION)
        };
    }
    connections::add_member(members, c, x);
    say(h, 0, c as u32)
}

// An offer that is accepted: behind the others, with its eligibility, which is remembered.
fn accept(
    h: Hub,
    members: &mut [u32],
    places: &mut [u32],
    notices: &[u32],
    c: u32,
    len: u32,
    tag: u32,
    stamp: Option<u32>,
) -> Told
    requires { (sound_hub h (tables members.old places.old notices.now) ≡ true) × (verdict (offer c len tag (option_in stamp)) (view h (tables members.old places.old notices.now)) ≡ 0) }
    ensures { Does (offer c len tag (option_in stamp)) h (tables members.old places.old notices.now) result (tables members.new places.new notices.now) }
{
    let k = c as usize;
    let m = connections::member_at(members, k);
    let e = connections::stamps::eligibility_by(m, h.clock, stamp) as u32;
    let held = tables::count(places);
    tables::append(
        places,
        held,
        Packet {
            connection: c,
            len,
            tag,
            arrival: h.clock,
            eligibility: e,
        },
    );
    connections::put_past(members, k, e);
    say(h, 0, e)
}

// A packet is offered: with a stamp, where it brings one.
pub fn offer_tested(
    h: Hub,
    members: &mut [u32],
    places: &mut [u32],
    notices: &[u32],
    c: u32,
    len: u32,
    tag: u32,
    stamp: Option<u32>,
) -> Told
    requires { sound_hub h (tables members.old places.old notices.now) ≡ true }
    ensures { Does (offer c len tag (option_in stamp)) h (tables members.old places.old notices.now) result (tables members.new places.new notices.now) }
{
    if let Err(why) = verdicts::offer_verdict(h, members, places, notices, c, len, stamp) {
        return say(h, why.number(), 0);
    }
    accept(h, members, places, notices, c, len, tag, stamp)
}

// A notice is offered.
pub fn notice_tested(
    h: Hub,
    members: &[u32],
    places: &[u32],
    notices: &mut [u32],
    len: u32,
    tag: u32,
) -> Told
    requires { sound_hub h (tables members.now places.now notices.old) ≡ true }
    ensures { Does (notice len tag) h (tables members.now places.now notices.old) result (tables members.now places.now notices.new) }
{
    let unset = verdicts::unset(h);
    match causes::take_notice(unset, h.link.largest, h.clock, notices, len, tag) {
        Ok(eligibility) => say(h, 0, eligibility),
        Err(why) => say(h, why.number(), 0),
    }
}

// A close that is done: the number is freed at once where its charge is over, else its owner is charged.
fn close_now(h: Hub, members: &mut [u32], places: &[u32], notices: &[u32], c: u32) -> Told
    requires { (sound_hub h (tables members.old places.now notices.now) ≡ true) × (verdict (close c) (view h (tables members.old places.now notices.now)) ≡ 0) }
    ensures { Does (close c) h (tables members.old places.now notices.now) result (tables members.new places.now notices.now) }
{
    let k = c as usize;
    let m = connections::member_at(members, k);
    if connections::closing::charge_over(m, connections::closing::charge_time(h.link), h.clock) {
        connections::closing::free_member(members, k);
        return say(h, 0, 0);
    }
    connections::closing::mark_closed(members, k);
    say(h, 0, 0)
}

// A connection is closed.
pub fn close_tested(h: Hub, members: &mut [u32], places: &[u32], notices: &[u32], c: u32) -> Told
    requires { sound_hub h (tables members.old places.now notices.now) ≡ true }
    ensures { Does (close c) h (tables members.old places.now notices.now) result (tables members.new places.now notices.now) }
{
    if let Err(why) = verdicts::close_verdict(h, members, places, notices, c) {
        return say(h, why.number(), 0);
    }
    close_now(h, members, places, notices, c)
}

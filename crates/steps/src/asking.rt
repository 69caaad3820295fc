// What a record asks, as the steps have it.
ghost use Rattle.std.specs.Prelude.{◌≡◌};
ghost use Rattle.answer_log.specs.Log.{asks};
ghost use Rattle.steps.specs.Wants.{asks_as};

use frames::{Framing, Share};
use rules::{Connection, Link};
use traces::Record;

// What is offered: a stamp, where it brings one.
#[derive(Clone, Copy)]
pub(crate) struct Offering {
    pub(crate) connection: u32,
    pub(crate) len: u32,
    pub(crate) tag: u32,
    pub(crate) stamp: Option<u32>,
}

// What a record asks: a call, with what it is made with; or ticks.
#[derive(Clone, Copy)]
pub(crate) enum Wanted {
    ToLink(Link),
    ToFrame(Framing),
    ToAdmit(Connection),
    ToShare(Share),
    ToClose(u32),
    ToOffer(Offering),
    ToNotice(u32, u32),
    ToTick(u16),
}

// What is offered by a `PK`, and by a `PS`, which brings a stamp.
fn offer_of(connection: u8, len: u16, tag: u32, stamp: Option<u32>) -> Offering
    ensures { result ≡ record { connection = connection; len = len; tag = tag; stamp = stamp } }
{
    Offering {
        connection: connection as u32,
        len: len as u32,
        tag,
        stamp,
    }
}

// What a record asks. Three kinds of record set a link of levels, two ask for an admission to a level, and two make an offer, so that each call stands in one place of the text and is compiled into the loop of steps.
pub(crate) fn asked_by(what: Record) -> Wanted
    ensures { asks_as result ≡ asks what }
{
    match what {
        Record::Link {
            levels,
            largest,
            silence,
            bounds,
        } => Wanted::ToLink(named::link_named(levels, largest, silence, bounds)),
        Record::LinkStandBy {
            levels,
            largest,
            silence,
            early,
            bounds,
        } => Wanted::ToLink(named::stand_by_named(levels, largest, silence, early, bounds)),
        Record::LinkWindows {
            levels,
            largest,
            silence,
            early,
            bounds,
            windows,
        } => Wanted::ToLink(named::windows_named(levels, largest, silence, early, bounds, windows)),
        Record::LinkFrames {
            frame,
            largest,
            silence,
        } => Wanted::ToFrame(named::framing_named(frame, largest, silence)),
        Record::Admit {
            level,
            gap,
            size,
            window,
            average,
        } => Wanted::ToAdmit(named::connection_named(level, gap, size, window, average)),
        Record::AdmitStamped {
            level,
            gap,
            size,
            allowance,
        } => Wanted::ToAdmit(named::stamped_named(level, gap, size, allowance)),
        Record::AdmitShare { units, places } => Wanted::ToShare(named::share_named(units, places)),
        Record::Close { connection } => Wanted::ToClose(connection as u32),
        Record::Offer {
            connection,
            len,
            tag,
        } => Wanted::ToOffer(offer_of(connection, len, tag, None)),
        Record::OfferStamped {
            connection,
            len,
            tag,
            stamp,
        } => Wanted::ToOffer(offer_of(connection, len, tag, Some(stamp))),
        Record::Notice { len, tag } => Wanted::ToNotice(len as u32, tag),
        Record::Ticks { ticks } => Wanted::ToTick(ticks),
    }
}

// The trace records of document 01, "Trace and answer records", and of document 02, R-1, R-4, R-6, R-8, R-9, R-11, R-12 and R-13: their kinds as values, read and written.
#![tactic(auto, using(std::proofs::lemmas::Grind::common_steps, fields::proofs::NumberLaws::length_little), unfolding(fields::specs::Formats::starts, fields::specs::Formats::read_kinds, fields::specs::Formats::read_kind, fields::specs::Formats::laid, fields::specs::Numbers::get_fields, fields::specs::Numbers::sum))]

mod link; // link.rt: links, of which one number says how many follow

ghost use Rattle.std.specs.Prelude.{◌≡◌, length, get_or, drop, option_and_then};
ghost use Rattle.fields.specs.Formats.{read_kind, laid, fitting, over};
ghost use Rattle.traces.specs.Kinds.{LF as LF_kind, CN as CN_kind, CS as CS_kind, CF as CF_kind, CL as CL_kind, PK as PK_kind, PS as PS_kind, NQ as NQ_kind, TK as TK_kind};
ghost use Rattle.traces.specs.Trace.{trace_layout, read_trace};

use fields::Draft;
use fields::read::{four, one, two, whole_of};

// The marks of the tables.
const LK: [u8; 2] = *b"LK";

const LE: [u8; 2] = *b"LE";

const LW: [u8; 2] = *b"LW";

const LF: [u8; 2] = *b"LF";

const CN: [u8; 2] = *b"CN";

const CS: [u8; 2] = *b"CS";

const CF: [u8; 2] = *b"CF";

const CL: [u8; 2] = *b"CL";

const PK: [u8; 2] = *b"PK";

const PS: [u8; 2] = *b"PS";

const NQ: [u8; 2] = *b"NQ";

const TK: [u8; 2] = *b"TK";

// The bytes of the longest trace record, which no record of another format passes.
pub const LONGEST_RECORD: usize = fields::LONGEST;

// A trace record with its numbers. Bounds and windows past `levels` are 0.
#[derive(Clone, Copy)]
pub enum Record {
    Link {
        levels: u8,
        largest: u16,
        silence: u8,
        bounds: [u16; 8],
    },
    LinkStandBy {
        levels: u8,
        largest: u16,
        silence: u8,
        early: u8,
        bounds: [u16; 8],
    },
    LinkWindows {
        levels: u8,
        largest: u16,
        silence: u8,
        early: u8,
        bounds: [u16; 8],
        windows: [u16; 8],
    },
    LinkFrames {
        frame: u16,
        largest: u16,
        silence: u8,
    },
    Admit {
        level: u8,
        gap: u16,
        size: u16,
        window: u16,
        average: u16,
    },
    AdmitStamped {
        level: u8,
        gap: u16,
        size: u16,
        allowance: u16,
    },
    AdmitShare {
        units: u16,
        places: u16,
    },
    Close {
        connection: u8,
    },
    Offer {
        connection: u8,
        len: u16,
        tag: u32,
    },
    OfferStamped {
        connection: u8,
        len: u16,
        tag: u32,
        stamp: u32,
    },
    Notice {
        len: u16,
        tag: u32,
    },
    Ticks {
        ticks: u16,
    },
}

// An `LF`.
fn link_frames(s: &[u8]) -> Option<(Record, usize)>
    ensures { result ≡ read_kind LF_kind (get_or s.now 2 0) s.now }
{
    let link_frames = Record::LinkFrames {
        frame: two(s, 2),
        largest: two(s, 4),
        silence: one(s, 6),
    };
    whole_of(s, 7, link_frames)
}

// A `CN`.
fn admit(s: &[u8]) -> Option<(Record, usize)>
    ensures { result ≡ read_kind CN_kind (get_or s.now 2 0) s.now }
{
    let admit = Record::Admit {
        level: one(s, 2),
        gap: two(s, 3),
        size: two(s, 5),
        window: two(s, 7),
        average: two(s, 9),
    };
    whole_of(s, 11, admit)
}

// A `CS`.
fn admit_stamped(s: &[u8]) -> Option<(Record, usize)>
    ensures { result ≡ read_kind CS_kind (get_or s.now 2 0) s.now }
{
    let admit_stamped = Record::AdmitStamped {
        level: one(s, 2),
        gap: two(s, 3),
        size: two(s, 5),
        allowance: two(s, 7),
    };
    whole_of(s, 9, admit_stamped)
}

// A `CF`.
fn admit_share(s: &[u8]) -> Option<(Record, usize)>
    ensures { result ≡ read_kind CF_kind (get_or s.now 2 0) s.now }
{
    let admit_share = Record::AdmitShare {
        units: two(s, 2),
        places: two(s, 4),
    };
    whole_of(s, 6, admit_share)
}

// A `CL`.
fn close(s: &[u8]) -> Option<(Record, usize)>
    ensures { result ≡ read_kind CL_kind (get_or s.now 2 0) s.now }
{
    whole_of(
        s,
        3,
        Record::Close {
            connection: one(s, 2),
        },
    )
}

// A `PK`.
fn offer(s: &[u8]) -> Option<(Record, usize)>
    ensures { result ≡ read_kind PK_kind (get_or s.now 2 0) s.now }
{
    let offer = Record::Offer {
        connection: one(s, 2),
        len: two(s, 3),
        tag: four(s, 5),
    };
    whole_of(s, 9, offer)
}

// A `PS`.
fn offer_stamped(s: &[u8]) -> Option<(Record, usize)>
    ensures { result ≡ read_kind PS_kind (get_or s.now 2 0) s.now }
{
    let offer_stamped = Record::OfferStamped {
        connection: one(s, 2),
        len: two(s, 3),
        tag: four(s, 5),
        stamp: four(s, 9),
    };
    whole_of(s, 13, offer_stamped)
}

// An `NQ`.
fn notice(s: &[u8]) -> Option<(Record, usize)>
    ensures { result ≡ read_kind NQ_kind (get_or s.now 2 0) s.now }
{
    let notice = Record::Notice {
        len: two(s, 2),
        tag: four(s, 4),
    };
    whole_of(s, 8, notice)
}

// A `TK`.
fn ticks(s: &[u8]) -> Option<(Record, usize)>
    ensures { result ≡ read_kind TK_kind (get_or s.now 2 0) s.now }
{
    whole_of(s, 4, Record::Ticks { ticks: two(s, 2) })
}

// The record that the bytes start with, and how many bytes it takes; none where it is malformed.
#[tactic(auto, unfolding(fields::specs::Formats::starts, fields::specs::Formats::read_kinds, fields::specs::Numbers::number))]
pub fn read(s: &[u8]) -> Option<(Record, usize)>
    ensures { result ≡ read_trace s.now }
{
    match [one(s, 0), one(s, 1)] {
        LK => link::read(s),
        LE => link::read_stand_by(s),
        LW => link::read_windows(s),
        LF => link_frames(s),
        CN => admit(s),
        CS => admit_stamped(s),
        CF => admit_share(s),
        CL => close(s),
        PK => offer(s),
        PS => offer_stamped(s),
        NQ => notice(s),
        TK => ticks(s),
        _ => None,
    }
}

// The record that starts at a place of a buffer.
pub fn read_at(buf: &[u8], at: usize) -> Option<(Record, usize)>
    ensures { result ≡ read_trace (drop at buf.now) }
{
    if buf.len() < at {
        return None;
    }
    read(&buf[at..])
}

// Writes a record at the start of the room lent, if it is written. Each kind goes into the room by itself, since its draft has a length that is known there, but for links.
#[tactic(auto, using(std::proofs::lemmas::Grind::common_steps, fields::proofs::NumberLaws::length_little), unfolding(fields::specs::Formats::laid, fields::specs::Numbers::put_fields, fields::specs::Numbers::none_lost))]
fn put(r: Record, room: &mut [u8]) -> usize
    ensures { (result ≡ length (fitting (laid (trace_layout r)) room.old)) × (room.new ≡ over (fitting (laid (trace_layout r)) room.old) room.old) }
{
    match r {
        Record::Link {
            levels,
            largest,
            silence,
            bounds,
        } => link::draft(levels, largest, silence, &bounds).into_room(room),
        Record::LinkStandBy {
            levels,
            largest,
            silence,
            early,
            bounds,
        } => link::draft_stand_by(levels, largest, silence, early, &bounds).into_room(room),
        Record::LinkWindows {
            levels,
            largest,
            silence,
            early,
            bounds,
            windows,
        } => link::draft_windows(levels, largest, silence, early, &bounds, &windows).into_room(
            room,
        ),
        Record::LinkFrames {
            frame,
            largest,
            silence,
        } => Draft::marked(LF)
            .two(frame)
            .two(largest)
            .one(silence)
            .into_room(room),
        Record::Admit {
            level,
            gap,
            size,
            window,
            average,
        } => Draft::headed(CN, level)
            .two(gap)
            .two(size)
            .two(window)
            .two(average)
            .into_room(room),
        Record::AdmitStamped {
            level,
            gap,
            size,
            allowance,
        } => {
            let stamped = Draft::headed(CS, level).two(gap).two(size).two(allowance);
            stamped.into_room(room)
        }
        Record::AdmitShare { units, places } => Draft::marked(CF)
            .two(units)
            .two(places)
            .into_room(room),
        Record::Close { connection } => Draft::headed(CL, connection).into_room(room),
        Record::Offer {
            connection,
            len,
            tag,
        } => Draft::headed(PK, connection)
            .two(len)
            .four(tag)
            .into_room(room),
        Record::OfferStamped {
            connection,
            len,
            tag,
            stamp,
        } => Draft::headed(PS, connection)
            .two(len)
            .four(tag)
            .four(stamp)
            .into_room(room),
        Record::Notice { len, tag } => Draft::marked(NQ).two(len).four(tag).into_room(room),
        Record::Ticks { ticks } => Draft::marked(TK).two(ticks).into_room(room),
    }
}

// Writes a record at the start of the room lent, where there is one, and answers how many bytes were written: none, with no byte changed, where it is malformed, is not
// written or does not fit.
// kept: the number of bytes written is a count, which the callers add to their own, and no mark: `steps::Stepped` has 0 too where nothing was to be written.
pub fn write(r: Option<Record>, room: &mut [u8]) -> usize
    ensures { (result ≡ length (fitting (laid (option_and_then trace_layout r)) room.old)) × (room.new ≡ over (fitting (laid (option_and_then trace_layout r)) room.old) room.old) }
{
    match r {
        Some(r) => put(r, room),
        None => 0,
    }
}

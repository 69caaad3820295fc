// The answer records of document 01, "Trace and answer records", and of document 02, R-1, R-2 and R-8: their kinds as values, read and written.
#![tactic(auto, using(std::proofs::lemmas::Grind::common_steps, fields::proofs::NumberLaws::length_little), unfolding(fields::specs::Formats::read_kind, fields::specs::Formats::laid, fields::specs::Numbers::get_fields, fields::specs::Numbers::put_fields, fields::specs::Numbers::none_lost, fields::specs::Numbers::sum))]

ghost use Rattle.std.specs.Prelude.{◌≡◌, ◌%◌, length, get_or, option_and_then};
ghost use Rattle.fields.specs.Formats.{read_kind, laid, fitting, over};
ghost use Rattle.answers.specs.Kinds.{LA as LA_kind, CA as CA_kind, CD as CD_kind, PA as PA_kind, NA as NA_kind, DP as DP_kind, TA as TA_kind, ER as ER_kind};
ghost use Rattle.answers.specs.Answers.{answer_layout, read_answer, answer_bytes};

use fields::Draft;
use fields::read::{four, one, two, whole_of};

// The marks of the tables.
const LA: [u8; 2] = *b"LA";

const CA: [u8; 2] = *b"CA";

const CD: [u8; 2] = *b"CD";

const PA: [u8; 2] = *b"PA";

const NA: [u8; 2] = *b"NA";

const DP: [u8; 2] = *b"DP";

const TA: [u8; 2] = *b"TA";

const ER: [u8; 2] = *b"ER";

// The bytes of the longest answer.
pub const LONGEST_ANSWER: usize = 19;

// An answer record with its numbers. `Broken` is the answer to a malformed trace record, and its verdict is always 14.
#[derive(Clone, Copy)]
pub enum Reply {
    Linked {
        verdict: u8,
    },
    Admitted {
        verdict: u8,
        connection: u8,
        level: u8,
        units: u32,
    },
    Closed {
        verdict: u8,
    },
    Offered {
        verdict: u8,
        eligibility: u32,
    },
    Noticed {
        verdict: u8,
        eligibility: u32,
    },
    Departed {
        connection: u8,
        tag: u32,
        arrival: u32,
        eligibility: u32,
        finish: u32,
    },
    Ticked {
        verdict: u8,
        ticks: u16,
    },
    Broken {
        offset: u32,
    },
}

// The answer to a link.
fn linked(s: &[u8]) -> Option<(Reply, usize)>
    ensures { result ≡ read_kind LA_kind (get_or s.now 2 0) s.now }
{
    whole_of(s, 3, Reply::Linked { verdict: one(s, 2) })
}

// The answer to an admission: the level that was short and its units stand behind the connection.
fn admitted(s: &[u8]) -> Option<(Reply, usize)>
    ensures { result ≡ read_kind CA_kind (get_or s.now 2 0) s.now }
{
    whole_of(
        s,
        9,
        Reply::Admitted {
            verdict: one(s, 2),
            connection: one(s, 3),
            level: one(s, 4),
            units: four(s, 5),
        },
    )
}

// The answer to a close.
fn closed(s: &[u8]) -> Option<(Reply, usize)>
    ensures { result ≡ read_kind CD_kind (get_or s.now 2 0) s.now }
{
    whole_of(s, 3, Reply::Closed { verdict: one(s, 2) })
}

// The answer to an offer.
fn offered(s: &[u8]) -> Option<(Reply, usize)>
    ensures { result ≡ read_kind PA_kind (get_or s.now 2 0) s.now }
{
    whole_of(
        s,
        7,
        Reply::Offered {
            verdict: one(s, 2),
            eligibility: four(s, 3),
        },
    )
}

// The answer to a notice.
fn noticed(s: &[u8]) -> Option<(Reply, usize)>
    ensures { result ≡ read_kind NA_kind (get_or s.now 2 0) s.now }
{
    whole_of(
        s,
        7,
        Reply::Noticed {
            verdict: one(s, 2),
            eligibility: four(s, 3),
        },
    )
}

// A packet's departure.
fn departed(s: &[u8]) -> Option<(Reply, usize)>
    ensures { result ≡ read_kind DP_kind (get_or s.now 2 0) s.now }
{
    whole_of(
        s,
        19,
        Reply::Departed {
            connection: one(s, 2),
            tag: four(s, 3),
            arrival: four(s, 7),
            eligibility: four(s, 11),
            finish: four(s, 15),
        },
    )
}

// The answer to ticks.
fn ticked(s: &[u8]) -> Option<(Reply, usize)>
    ensures { result ≡ read_kind TA_kind (get_or s.now 2 0) s.now }
{
    whole_of(
        s,
        5,
        Reply::Ticked {
            verdict: one(s, 2),
            ticks: two(s, 3),
        },
    )
}

// The answer to a malformed record: the verdict before its offset is 14.
#[tactic(auto, unfolding(fields::specs::Formats::read_kind, fields::specs::Numbers::number, fields::specs::Numbers::get_fields, fields::specs::Numbers::sum))]
fn broken(s: &[u8]) -> Option<(Reply, usize)>
    ensures { result ≡ read_kind ER_kind (get_or s.now 2 0) s.now }
{
    match one(s, 2) {
        14 => whole_of(s, 7, Reply::Broken { offset: four(s, 3) }),
        _ => None,
    }
}

// The answer that the bytes start with, and how many bytes it takes; none where it is malformed.
#[tactic(auto, unfolding(fields::specs::Formats::starts, fields::specs::Formats::read_kinds, fields::specs::Numbers::number))]
pub fn read(s: &[u8]) -> Option<(Reply, usize)>
    ensures { result ≡ read_answer s.now }
{
    match [one(s, 0), one(s, 1)] {
        LA => linked(s),
        CA => admitted(s),
        CD => closed(s),
        PA => offered(s),
        NA => noticed(s),
        DP => departed(s),
        TA => ticked(s),
        ER => broken(s),
        _ => None,
    }
}

// Writes an answer at the start of the room lent. Each kind goes into the room by itself, since its draft has a length that is known there.
#[inline(always)]
fn put(r: Reply, room: &mut [u8]) -> usize
    ensures { (result ≡ length (fitting (answer_bytes r) room.old)) × (room.new ≡ over (fitting (answer_bytes r) room.old) room.old) }
{
    match r {
        Reply::Linked { verdict } => Draft::headed(LA, verdict).into_room(room),
        Reply::Admitted {
            verdict,
            connection,
            level,
            units,
        } => Draft::headed(CA, verdict)
            .one(connection)
            .one(level)
            .four(units)
            .into_room(room),
        Reply::Closed { verdict } => Draft::headed(CD, verdict).into_room(room),
        Reply::Offered {
            verdict,
            eligibility,
        } => Draft::headed(PA, verdict).four(eligibility).into_room(room),
        Reply::Noticed {
            verdict,
            eligibility,
        } => Draft::headed(NA, verdict).four(eligibility).into_room(room),
        Reply::Departed {
            connection,
            tag,
            arrival,
            eligibility,
            finish,
        } => Draft::headed(DP, connection)
            .four(tag)
            .four(arrival)
            .four(eligibility)
            .four(finish)
            .into_room(room),
        Reply::Ticked { verdict, ticks } => Draft::headed(TA, verdict).two(ticks).into_room(room),
        Reply::Broken { offset } => Draft::headed(ER, 14).four(offset).into_room(room),
    }
}

// Writes an answer at the start of the room lent, where there is one, and answers how many bytes were written: none, with no byte changed, where it is malformed or does
// not fit.
// kept: the number of bytes written is a count, which callers add to their own (`steps::Stepped` has 0 too where nothing was to be written), and no mark of a refusal.
#[inline(always)]
pub fn write(r: Option<Reply>, room: &mut [u8]) -> usize
    ensures { (result ≡ length (fitting (laid (option_and_then answer_layout r)) room.old)) × (room.new ≡ over (fitting (laid (option_and_then answer_layout r)) room.old) room.old) }
{
    match r {
        Some(r) => put(r, room),
        None => 0,
    }
}

// The low byte of a number. An answer's numbers of one byte are no larger.
pub fn low(v: u32) -> u8
    ensures { result ≡ v % 256 }
{
    (v % 256) as u8
}

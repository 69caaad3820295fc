// The refusals of the tables of verdicts of both disciplines: each with its number, and that of a level test with by how much it is over.
// Document 01, "Verdict numbers"; document 02, R-1, R-2, R-8, R-9, R-11 and R-13.
ghost use Rattle.std.specs.Prelude.{◌≡◌};
ghost use Rattle.causes.specs.Refusals.{number_of, short_of};

use rules::Short;

// Why a call is refused.
#[derive(Clone, Copy, PartialEq, Eq)]
pub enum Refusal {
    // 1: the state is not sound
    NotSound,
    // 2: no link is set
    NoLink,
    // 3: a link is set already
    LinkSet,
    // 4: a limit of the link is broken
    LinkLimit,
    // 5: the level is not from 1 to n
    Level,
    // 6: a figure of the newcomer is outside its limits
    Figures,
    // 7: no number is free
    NoNumber,
    // 8: the level test fails with the newcomer counted, or the frame is over with it: by so much
    LevelTest(Short),
    // 9: the reservations, or the places, would pass their limit
    Reservations,
    // 10: no such connection
    NoConnection,
    // 11: the length is not from 1 to the largest
    Length,
    // 12: the connection holds as many packets as it may
    Full,
    // 13: the clock has ended
    ClockEnded,
    // 15: the places of the notices are full
    NoticesFull,
    // 16: the connection still holds packets
    HoldsPackets,
    // 17: the stamp, or the eligibility that it gives, is out of time
    OutOfTime,
    // 18: the eligibility would lie too far past the present tick
    TooFar,
    // 19: the packet would take its connection past its units of the frame
    PastUnits,
}

impl Refusal {
    // Its number in the tables; 14 is no call's, but a malformed record's.
    pub fn number(self) -> u32
        ensures { result ≡ number_of self }
    {
        match self {
            Refusal::NotSound => 1,
            Refusal::NoLink => 2,
            Refusal::LinkSet => 3,
            Refusal::LinkLimit => 4,
            Refusal::Level => 5,
            Refusal::Figures => 6,
            Refusal::NoNumber => 7,
            Refusal::LevelTest(_) => 8,
            Refusal::Reservations => 9,
            Refusal::NoConnection => 10,
            Refusal::Length => 11,
            Refusal::Full => 12,
            Refusal::ClockEnded => 13,
            Refusal::NoticesFull => 15,
            Refusal::HoldsPackets => 16,
            Refusal::OutOfTime => 17,
            Refusal::TooFar => 18,
            Refusal::PastUnits => 19,
        }
    }

    // By how much it is over: zeros but for a level test.
    pub fn short(self) -> Short
        ensures { result ≡ short_of self }
    {
        match self {
            Refusal::LevelTest(over) => over,
            _ => Short::default(),
        }
    }
}

// Records and answers made of the numbers of a request: any numbers, also those of which nothing is to be written.
ghost use Rattle.std.specs.Prelude.{◌+◌, ◌<◌, ◌≤◌};

use answers::Reply;
use fields::read::{four, one, two};
use traces::Record;

// The numbers of a request: a mark, and the fields behind it, those of one byte, those of two and those of four, each in the record's order. Each is read from its place when a
// record has it.
#[derive(Clone, Copy)]
pub struct Fields<'a> {
    asked: &'a [u8],
}

// The numbers of a request: they stand from 5 on.
pub fn numbers(asked: &[u8]) -> Fields {
    Fields { asked }
}

impl Fields<'_> {
    fn mark(&self) -> [u8; 2] {
        [one(self.asked, 5), one(self.asked, 6)]
    }

    // The k-th of one byte.
    fn byte(&self, k: usize) -> u8
        requires { k < 3 }
    {
        one(self.asked, 7 + k)
    }

    // The k-th of two bytes.
    fn pair(&self, k: usize) -> u16
        requires { k < 17 }
    {
        two(self.asked, 10 + 2 * k)
    }

    // The k-th of four bytes.
    fn four(&self, k: usize) -> u32
        requires { k < 4 }
    {
        four(self.asked, 44 + 4 * k)
    }

    // Eight of two bytes, from the k-th on: the bounds of a link, or its windows.
    fn eight(&self, k: usize) -> [u16; 8]
        requires { k + 8 ≤ 17 }
    {
        std::array::from_fn(|i| self.pair(k + i))
    }
}

// A link, whatever `levels` is.
fn link(s: &Fields) -> Record {
    let levels = s.byte(0);
    let largest = s.pair(0);
    let silence = s.byte(1);
    match &s.mark() {
        b"LK" => Record::Link {
            levels,
            largest,
            silence,
            bounds: s.eight(1),
        },
        b"LE" => Record::LinkStandBy {
            levels,
            largest,
            silence,
            early: s.byte(2),
            bounds: s.eight(1),
        },
        _ => Record::LinkWindows {
            levels,
            largest,
            silence,
            early: s.byte(2),
            bounds: s.eight(1),
            windows: s.eight(9),
        },
    }
}

// The trace record with a mark; none with a mark of no trace record.
pub fn record(s: &Fields) -> Option<Record> {
    Some(match &s.mark() {
        b"LK" | b"LE" | b"LW" => link(s),
        b"LF" => Record::LinkFrames {
            frame: s.pair(0),
            largest: s.pair(1),
            silence: s.byte(0),
        },
        b"CN" => Record::Admit {
            level: s.byte(0),
            gap: s.pair(0),
            size: s.pair(1),
            window: s.pair(2),
            average: s.pair(3),
        },
        b"CS" => Record::AdmitStamped {
            level: s.byte(0),
            gap: s.pair(0),
            size: s.pair(1),
            allowance: s.pair(2),
        },
        b"CF" => Record::AdmitShare {
            units: s.pair(0),
            places: s.pair(1),
        },
        b"CL" => Record::Close {
            connection: s.byte(0),
        },
        b"PK" => Record::Offer {
            connection: s.byte(0),
            len: s.pair(0),
            tag: s.four(0),
        },
        b"PS" => Record::OfferStamped {
            connection: s.byte(0),
            len: s.pair(0),
            tag: s.four(0),
            stamp: s.four(1),
        },
        b"NQ" => Record::Notice {
            len: s.pair(0),
            tag: s.four(0),
        },
        b"TK" => Record::Ticks { ticks: s.pair(0) },
        _ => return None,
    })
}

// The answer with a mark; none with a mark of no answer.
pub fn reply(s: &Fields) -> Option<Reply> {
    Some(match &s.mark() {
        b"LA" => Reply::Linked { verdict: s.byte(0) },
        b"CA" => Reply::Admitted {
            verdict: s.byte(0),
            connection: s.byte(1),
            level: s.byte(2),
            units: s.four(0),
        },
        b"CD" => Reply::Closed { verdict: s.byte(0) },
        b"PA" => Reply::Offered {
            verdict: s.byte(0),
            eligibility: s.four(0),
        },
        b"NA" => Reply::Noticed {
            verdict: s.byte(0),
            eligibility: s.four(0),
        },
        b"DP" => Reply::Departed {
            connection: s.byte(0),
            tag: s.four(0),
            arrival: s.four(1),
            eligibility: s.four(2),
            finish: s.four(3),
        },
        b"TA" => Reply::Ticked {
            verdict: s.byte(0),
            ticks: s.pair(0),
        },
        b"ER" => Reply::Broken { offset: s.four(0) },
        _ => return None,
    })
}

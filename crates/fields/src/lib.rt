// What records of every format are made of. This file: a record's bytes, put together before any is written, so that the room lent is tested once and
// changed only if all of them fit.
#![tactic(auto, using(std::proofs::lemmas::Grind::common_steps, crate::proofs::NumberLaws::length_little))]

pub mod read; // read.rt: the numbers of a record, read from bytes

ghost use Rattle.std.specs.Prelude.{◌≡◌, [], ◌++◌, ◌+◌, ◌*◌, ◌<◌, ◌≤◌, length, replicate};
ghost use Rattle.fields.specs.Numbers.{little, put_fields};
ghost use Rattle.fields.specs.Formats.{fitting, over};

use std::marker::Model;

// The bytes of the longest record of any format, an `LW` of eight levels.
pub const LONGEST: usize = 39;

// A record's bytes so far: the first `len` of `bytes`. Those behind them are 0, so that a draft is known by the bytes that it is seen as, and may be copied.
#[derive(Clone, Copy)]
pub struct Draft {
    bytes: [u8; LONGEST],
    len: usize,
}

impl Model for Draft {
    ghost use Rattle.std.specs.Prelude.{◌≡◌, ℕ, List, ◌++◌, ◌-◌, ◌≤◌, length, take, drop, replicate};
    ghost use Rattle.fields.specs.declared.TheConstants.{LONGEST};
    ghost use Rattle.std.proofs.Common.{sym, ap, ◌∙◌, subst, take-append-drop, length-take-le};

    ghost Value = { List ℕ };

    ghost view = { λ d. take d.len d.bytes };

    ghost invariant = { λ d. (d.len ≤ LONGEST) × (length d.bytes ≡ LONGEST) × (drop d.len d.bytes ≡ replicate (LONGEST - d.len) 0) };

    ghost inverse = { λ bs. record { bytes = bs ++ replicate (LONGEST - length bs) 0; len = length bs } };

    ghost inverse_ok = { λ d h i.
        let len = length-take-le d.len d.bytes (subst (λ n. d.len ≤ n) (sym h.1) h.0) in
        let held = take d.len d.bytes in
        record {
          bytes = (ap (λ n. held ++ replicate (LONGEST - n) 0) len ∙ ap (λ bs. held ++ bs) (sym h.2) ∙ take-append-drop d.len d.bytes) i;
          len = len i;
        } };
}

impl Draft {
    // No byte yet.
    pub fn empty() -> Draft
        ensures { result ≡ [] }
    {
        Draft {
            bytes: [0; LONGEST],
            len: 0,
        }
    }

    // A mark alone.
    pub fn marked(mark: [u8; 2]) -> Draft
        ensures { result ≡ mark }
    {
        Draft::empty().one(mark[0]).one(mark[1])
    }

    // A mark and the byte behind it.
    pub fn headed(mark: [u8; 2], first: u8) -> Draft
        ensures { result ≡ mark ++ little 1 first }
    {
        Draft::marked(mark).one(first)
    }

    // How many bytes there are.
    pub fn len(&self) -> usize
        ensures { result ≡ length self.now }
    {
        self.bytes().len()
    }

    // The bytes, without those behind them.
    pub fn bytes(&self) -> &[u8]
        ensures { result.now ≡ self.now }
    {
        &self.bytes[..self.len]
    }

    // One byte more, in place.
    fn push(&mut self, v: u8)
        requires { length self.old < LONGEST }
        ensures { self.new ≡ self.old ++ little 1 v }
    {
        let at = self.len;
        self.bytes[at] = v;
        self.len = at + 1;
    }

    // A number in two bytes more, in place.
    fn push_two(&mut self, v: u16)
        requires { length self.old + 1 < LONGEST }
        ensures { self.new ≡ self.old ++ little 2 v }
    {
        let bytes = v.to_le_bytes();
        self.push(bytes[0]);
        self.push(bytes[1]);
    }

    // One byte more.
    pub fn one(mut self, v: u8) -> Draft
        requires { length self < LONGEST }
        ensures { result ≡ self ++ little 1 v }
    {
        self.push(v);
        self
    }

    // A number in two bytes more, the low one first.
    pub fn two(mut self, v: u16) -> Draft
        requires { length self + 1 < LONGEST }
        ensures { result ≡ self ++ little 2 v }
    {
        self.push_two(v);
        self
    }

    // A number in four bytes more, the low one first.
    pub fn four(self, v: u32) -> Draft
        requires { length self + 3 < LONGEST }
        ensures { result ≡ self ++ little 4 v }
    {
        let bytes = v.to_le_bytes();
        self.one(bytes[0]).one(bytes[1]).one(bytes[2]).one(bytes[3])
    }

    // Some numbers, in two bytes each.
    pub fn pairs(mut self, numbers: &[u16]) -> Draft
        requires { length self + 2 * length numbers.now ≤ LONGEST }
        ensures { result ≡ self ++ put_fields (replicate (length numbers.now) 2) numbers.now }
    {
        for number in numbers {
            self.push_two(*number);
        }
        self
    }

    // The bytes into the room lent, if they fit; how many were written.
    pub fn into_room(self, room: &mut [u8]) -> usize
        ensures { (result ≡ length (fitting self room.old)) × (room.new ≡ over (fitting self room.old) room.old) }
    {
        let n = self.len;
        if room.len() < n {
            return 0;
        }
        room[..n].copy_from_slice(&self.bytes[..n]);
        n
    }
}

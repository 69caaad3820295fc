// Reading and writing over std's readers and writers: how much was moved, or that a read or a write failed, whatever the system tells of it; and a number in digits.
#![tactic(auto)]

mod number; // number.rt: a number in decimal digits

ghost use Rattle.std.specs.Prelude.{◌≡◌, length, take};
ghost use Rattle.std.specs.Io.{ReadsAtMost};
ghost use Rattle.std.specs.Io.KnownBytes.{Consumes, ReadConsumes};
ghost use Rattle.streams.specs.Moves.{IsPrefixLen, Writes};

pub use number::{decimal, print_decimal};
use std::io::{Read, Write};

// A read failed, also one that a signal interrupted.
#[derive(Clone, Copy, Debug, PartialEq, Eq)]
pub struct ReadError;

// A write took nothing or failed.
#[derive(Clone, Copy, Debug, PartialEq, Eq)]
pub struct WriteError;

// 65,536 zeros, for a loop that moves much data.
pub fn large_buffer() -> [u8; 65536]
    ensures { 65536 ≡ length result }
{
    [0; 65536]
}

// One read: how many bytes it put at the front of the room, 0 at the end of the input. In a room of none it says nothing.
pub fn read<R: Read>(from: &mut R, room: &mut [u8]) -> Result<usize, ReadError>
    ensures moved { ReadsAtMost result room.new }
    ensures bytes { ReadConsumes (R.remaining from.old) (R.remaining from.new) result room.new }
{
    from.read(room).map_err(|_| ReadError)
}

// Reads until the room is full, the input ends or a read fails: how many bytes it put at the front of the room. In a room of none it reads nothing.
pub fn read_full<R: Read>(from: &mut R, room: &mut [u8]) -> usize
    ensures front { IsPrefixLen result room.new }
    ensures bytes { Consumes (R.remaining from.old) (R.remaining from.new) (take result room.new) }
{
    let mut done: usize = 0;
    // kept: what may not change, the clause `bytes` after a failed read: std's `read_exact` tells no count there, and goes on after an interrupted read
    while done < room.len() {
        match from.read(&mut room[done..]) {
            Ok(n) if n > 0 => done += n,
            _ => break,
        }
    }
    done
}

// Writes all bytes. Where a write takes nothing or fails it stops there, and the first of the bytes may be written. Of no bytes it writes nothing.
pub fn write_all<W: Write>(to: &mut W, bytes: &[u8]) -> Result<(), WriteError>
    ensures { Writes (W.contents to.old) (W.contents to.new) result bytes.now }
{
    let mut rest = bytes;
    // kept: what may not change, the clause of an `Err`: std's `write_all` says nothing of the bytes written before one, and goes on after an interrupted write
    while !rest.is_empty() {
        match to.write(rest) {
            Ok(n) if n > 0 => rest = &rest[n..],
            _ => return Err(WriteError),
        }
    }
    Ok(())
}

// Reads and writes records and answers as it is asked to on standard input, and tells what came of it on standard output; tests/records-cases asks. A turn reads a block of
// 512 requests and a block of as many rooms, of 128 bytes each, and writes the rooms back.
//
// A request: what is asked (`t`, `a`, `T` or `A`); the record's place among the bytes; how many of the bytes are read; where the part of the room that is lent starts, and where
// it ends; from 5 on the numbers of `made`; from 64 on the bytes. A room: 64 bytes, and behind them what is told: how many bytes reading took, and how many were written.
#![tactic(auto)]

mod made; // made.rt: records and answers of any numbers

ghost use Rattle.std.specs.Prelude.{◌≡◌, length};

use fields::read::one;
use std::io::{Read, Write};

// How many bytes reading took, and how many were written, each by its low byte.
fn told(taken: usize, written: usize) -> [u8; 2] {
    [(taken % 256) as u8, (written % 256) as u8]
}

// `t`: the trace record at a place is read, and what was read is written.
fn trace(bytes: &[u8], place: usize, room: &mut [u8]) -> [u8; 2] {
    match traces::read_at(bytes, place) {
        Some((what, taken)) => told(taken, traces::write(Some(what), room)),
        None => told(0, traces::write(None, room)),
    }
}

// `a`: the same of the answer that the bytes start with.
fn answer(bytes: &[u8], room: &mut [u8]) -> [u8; 2] {
    match answers::read(bytes) {
        Some((what, taken)) => told(taken, answers::write(Some(what), room)),
        None => told(0, answers::write(None, room)),
    }
}

// `T`: a trace record is made, and written.
fn made_trace(asked: &[u8], room: &mut [u8]) -> [u8; 2] {
    told(0, traces::write(made::record(&made::numbers(asked)), room))
}

// `A`: an answer is made, and written.
fn made_answer(asked: &[u8], room: &mut [u8]) -> [u8; 2] {
    told(0, answers::write(made::reply(&made::numbers(asked)), room))
}

// What a request asks, with the bytes and the room that it names.
fn act(asked: &[u8], bytes: &[u8], room: &mut [u8]) -> [u8; 2] {
    let what = one(asked, 0);
    match what {
        b't' => trace(bytes, one(asked, 1) as usize, room),
        b'a' => answer(bytes, room),
        b'T' => made_trace(asked, room),
        _ => made_answer(asked, room),
    }
}

// A byte, where there is room for it.
fn put(room: &mut [u8], at: usize, v: u8) {
    if at < room.len() {
        room[at] = v;
    }
}

// A request. Of a part that ends before it starts nothing is told.
fn serve(asked: &[u8], room: &mut [u8])
    requires { (length asked.now ≡ 128) × (length room.old ≡ 128) }
{
    let end = one(asked, 2) as usize % 65;
    let from = one(asked, 3) as usize % 65;
    let to = one(asked, 4) as usize % 65;
    if to < from {
        return;
    }
    let told = act(asked, &asked[64..64 + end], &mut room[from..to]);
    put(room, 64, told[0]);
    put(room, 65, told[1]);
}

// All requests of a block, each with its room.
fn block(asked: &[u8], rooms: &mut [u8])
    requires { (length asked.now ≡ 65536) × (length rooms.old ≡ 65536) }
{
    for (request, room) in asked.chunks_exact(128).zip(rooms.chunks_exact_mut(128)) {
        serve(request, room);
    }
}

// A block of requests and one of rooms, where there are any; whether the rooms were written back.
fn turn<R: Read, W: Write>(from: &mut R, to: &mut W) -> bool {
    let mut asked = streams::large_buffer();
    let mut rooms = streams::large_buffer();
    streams::read_full(from, &mut asked);
    if streams::read_full(from, &mut rooms) == 0 {
        return false;
    }
    block(&asked, &mut rooms);
    streams::write_all(to, &rooms).is_ok()
}

// Nothing says that the input ends, and a proved loop has to: so its turns are counted, to more than any input has.
fn main(rt: HostRuntime) {
    let mut from = rt.stdin();
    let mut to = rt.stdout();
    for _ in 0..1000000 {
        if !turn(&mut from, &mut to) {
            break;
        }
    }
}

// Lent tables of packets, five numbers to a row: the places table of held packets and the table of notices.
#![tactic(auto)]

pub mod rows; // rows.rt: the rows of a table, counted once

ghost use Rattle.std.specs.Prelude.{◌≡◌, [], ◌∷◌, ◌++◌, ℕ, ◌+◌, ◌*◌, ◌-◌, ◌<◌, ◌≤◌, eqb, length};
ghost use Rattle.std.proofs.lemmas.List.Edits.{sets};
ghost use Rattle.rules.specs.SoundTest.{same_numbers};
ghost use Rattle.tables.specs.Table.{used};
ghost use Rattle.tables.specs.Places.{row_at, put, shifted, rows, table_of, cut, place, no_packet};

use limits::PACKET_WIDTH;
use rules::Packet;

// An unused row.
pub fn no_packet() -> Packet
    ensures { result ≡ no_packet }
{
    Packet::default()
}

// The packet in row i.
pub fn row(table: &[u32], i: usize) -> Packet
    requires { 5 * i + 5 ≤ length table.now }
    ensures { result ≡ row_at table.now i }
{
    let at = PACKET_WIDTH * i;
    Packet {
        connection: table[at],
        len: table[at + 1],
        tag: table[at + 2],
        arrival: table[at + 3],
        eligibility: table[at + 4],
    }
}

// Row i becomes p.
fn put_row(table: &mut [u32], i: usize, p: Packet)
    requires { 5 * i + 5 ≤ length table.old }
    ensures { table.new ≡ put table.old i p }
{
    let at = PACKET_WIDTH * i;
    table[at] = p.connection;
    table[at + 1] = p.len;
    table[at + 2] = p.tag;
    table[at + 3] = p.arrival;
    table[at + 4] = p.eligibility;
}

// n numbers from a row behind `from` on move down to `from`.
fn shift(table: &mut [u32], from: usize, n: usize)
    requires { from + 5 + n ≤ length table.old }
    ensures { table.new ≡ shifted table.old from n }
{
    let behind = from + PACKET_WIDTH;
    table.copy_within(behind..behind + n, from);
}

// Two tables have the same numbers.
pub fn same(a: &[u32], b: &[u32]) -> bool
    ensures { result ≡ same_numbers a.now b.now }
{
    a == b
}

// The number of rows in use, in any table, of `width` numbers to a row.
pub fn in_use(table: &[u32], width: usize) -> usize
    requires { 2 ≤ width }
    ensures { result ≡ length (used width table.now) }
{
    let n = table.len() / width;
    for i in 0..n {
        if table[width * i + 1] == 0 {
            return i;
        }
    }
    n
}

// The number of rows.
pub fn held(table: &[u32]) -> usize
    ensures { result ≡ length (rows table.now) }
{
    in_use(table, PACKET_WIDTH)
}

// Whether there is no row.
pub fn none(table: &[u32]) -> bool
    ensures { result ≡ eqb (length (rows table.now)) 0 }
{
    if table.len() < PACKET_WIDTH {
        return true;
    }
    table[1] == 0
}

// A number that the rows of a table do not pass: the first of 1, 4, 16, 64 and so on whose row is not in use, or that of all rows.
fn reach(table: &[u32]) -> usize
    ensures { (length (rows table.now) ≤ result) × (5 * result ≤ length table.now) }
{
    let all = table.len() / PACKET_WIDTH;
    let mut high: usize = 1;
    // kept: without the leaps a table with no row costs as many reads as a full one
    while high < all {
        if table[PACKET_WIDTH * high + 1] == 0 {
            return high;
        }
        high *= 4;
    }
    all
}

// The number of rows of a table with zeros behind them, by leaps and then halving: few rows are found quickly.
pub fn count(table: &[u32]) -> usize
    requires { table.now ≡ table_of (length table.now) (rows table.now) }
    ensures { result ≡ length (rows table.now) }
{
    let (rows, _) = table.as_chunks::<PACKET_WIDTH>();
    rows[..reach(table)].partition_point(|row| row[1] != 0)
}

// Row i of the held rows goes, the later ones move up, the last becomes zero.
pub fn remove(table: &mut [u32], held: usize, i: usize)
    requires { (table.old ≡ table_of (length table.old) (rows table.old)) × (held ≡ length (rows table.old)) × (i < held) × (5 * held ≤ length table.old) }
    ensures { table.new ≡ table_of (length table.old) (cut i (rows table.old)) }
{
    shift(table, PACKET_WIDTH * i, PACKET_WIDTH * (held - i - 1));
    put_row(table, held - 1, no_packet());
}

// The place of the first row of connection c, or the number of rows; `Rows::find` answers an Option.
// kept: what may not change: the equality with `place`, by which `line::depart` takes out a row that it knows to be held
pub fn find(table: &[u32], held: usize, c: u32) -> usize
    requires { held ≡ length (rows table.now) }
    ensures { result ≡ place c (rows table.now) }
{
    (0..held)
        .position(|i| row(table, i).connection == c)
        .unwrap_or(held)
}

// p behind the held rows.
pub fn append(table: &mut [u32], held: usize, p: Packet)
    requires { (table.old ≡ table_of (length table.old) (rows table.old)) × (held ≡ length (rows table.old)) × (5 * held + 5 ≤ length table.old) }
    ensures { table.new ≡ table_of (length table.old) (rows table.old ++ p ∷ []) }
{
    put_row(table, held, p);
}

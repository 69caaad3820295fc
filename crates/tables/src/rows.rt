// The rows of a lent table of packets, counted once.
ghost use Rattle.std.specs.Prelude.{◌≡◌, ◌*◌, ◌<◌, ◌≤◌, eqb, length, position};
ghost use Rattle.tables.specs.Places.{row_at, rows};

use rules::Packet;

// A lent table, and the number of its rows.
#[derive(Clone, Copy)]
pub struct Rows<'a> {
    table: &'a [u32],
    held: usize,
    pub ghost counted: { held ≡ length (rows table.now) },
    pub ghost inside: { 5 * held ≤ length table.now },
}

impl<'a> Rows<'a> {
    // The rows of any table.
    pub fn of(table: &'a [u32]) -> Rows<'a>
        ensures { result.table.now ≡ table.now }
    {
        Rows {
            table,
            held: crate::held(table),
        }
    }

    // The table.
    pub fn table(&self) -> &'a [u32]
        ensures { result.now ≡ self.now.table.now }
    {
        self.table
    }

    // How many rows there are.
    pub fn len(&self) -> usize
        ensures { result ≡ length (rows self.now.table.now) }
    {
        self.held
    }

    // Whether there is none.
    pub fn is_empty(&self) -> bool
        ensures { result ≡ eqb (length (rows self.now.table.now)) 0 }
    {
        self.len() == 0
    }

    // The packet in row i.
    pub fn at(&self, i: usize) -> Packet
        requires { i < length (rows self.now.table.now) }
        ensures { result ≡ row_at self.now.table.now i }
    {
        crate::row(self.table, i)
    }

    // The place of the first row of connection c, where there is one.
    pub fn find(&self, c: u32) -> Option<usize>
        ensures { result ≡ position (λ p. eqb p.connection c) (rows self.now.table.now) }
    {
        (0..self.held).position(|i| self.at(i).connection == c)
    }
}

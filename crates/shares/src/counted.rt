// The rows of a lent table of connections of the second discipline, counted once.
ghost use Rattle.std.specs.Prelude.{◌≡◌, ◌*◌, ◌<◌, ◌≤◌, length};
ghost use Rattle.frames.specs.Model.{nth};
ghost use Rattle.shares.specs.Shares.{shares_in};

use frames::Share;

// A lent table, and how many connections stand in it.
#[derive(Clone, Copy)]
pub struct Shares<'a> {
    table: &'a [u32],
    standing: usize,
    pub ghost counted: { standing ≡ length (shares_in table.now) },
    pub ghost inside: { 2 * standing ≤ length table.now },
}

impl<'a> Shares<'a> {
    // The rows of any table.
    pub fn of(table: &'a [u32]) -> Shares<'a>
        ensures { result.table.now ≡ table.now }
    {
        Shares {
            table,
            standing: crate::standing(table),
        }
    }

    // The table.
    pub fn table(&self) -> &'a [u32]
        ensures { result.now ≡ self.now.table.now }
    {
        self.table
    }

    // How many stand.
    pub fn len(&self) -> usize
        ensures { result ≡ length (shares_in self.now.table.now) }
    {
        self.standing
    }

    // The figures of number c.
    pub fn at(&self, c: usize) -> Share
        requires { c < length (shares_in self.now.table.now) }
        ensures { result ≡ nth (shares_in self.now.table.now) c }
    {
        crate::share_at(self.table, c)
    }
}

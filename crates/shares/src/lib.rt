// The lent table of connections of the second discipline: r and p to a row.
#![tactic(auto)]

pub mod counted; // counted.rt: its rows, counted once

ghost use Rattle.std.specs.Prelude.{◌≡◌, true, [], ◌∷◌, ◌++◌, ◌+◌, ◌*◌, ◌<◌, ◌≤◌, length, get_or};
ghost use Rattle.rules.specs.Words.{sum};
ghost use Rattle.rules.specs.Limits.{max_connections};
ghost use Rattle.frames.specs.Model.{nth};
ghost use Rattle.frames.specs.Admission.{stands, all_places};
ghost use Rattle.shares.specs.Shares.{no_share, all_units, share_at, put, shares_in, written_shares, shares_formed};

use frames::Share;
use limits::{MAX_CONNECTIONS, SHARE_WIDTH};

// An unused row.
pub fn no_share() -> Share
    ensures { result ≡ no_share }
{
    Share::default()
}

// Row c.
pub fn share_at(shares: &[u32], c: usize) -> Share
    requires { 2 * c + 2 ≤ length shares.now }
    ensures { result ≡ share_at shares.now c }
{
    let at = SHARE_WIDTH * c;
    Share {
        units: shares[at],
        places: shares[at + 1],
    }
}

// Row c becomes x.
fn put_share(shares: &mut [u32], c: usize, x: Share)
    requires { 2 * c + 2 ≤ length shares.old }
    ensures { shares.new ≡ put shares.old c x }
{
    let at = SHARE_WIDTH * c;
    shares[at] = x.units;
    shares[at + 1] = x.places;
}

// How many connections stand, in any table.
pub fn standing(shares: &[u32]) -> usize
    ensures { result ≡ length (shares_in shares.now) }
{
    tables::in_use(shares, SHARE_WIDTH)
}

// Whether number c stands.
pub fn stands(shares: &[u32], c: u32) -> bool
    requires { shares_formed shares.now ≡ true }
    ensures { result ≡ stands (shares_in shares.now) c }
{
    let row = c as usize;
    if MAX_CONNECTIONS <= row {
        return false;
    }
    0 < shares[SHARE_WIDTH * row + 1]
}

// The figures of number c, zeros where it does not stand.
pub fn figures_of(shares: &[u32], c: u32) -> Share
    requires { shares_formed shares.now ≡ true }
    ensures { result ≡ nth (shares_in shares.now) c }
{
    let row = c as usize;
    if row < MAX_CONNECTIONS {
        return share_at(shares, row);
    }
    no_share()
}

// x behind those who stand.
pub fn join(shares: &mut [u32], standing: usize, x: Share)
    requires { (shares_formed shares.old ≡ true) × (standing ≡ length (shares_in shares.old)) × (standing < max_connections) }
    ensures { shares.new ≡ written_shares (shares_in shares.old ++ x ∷ []) }
{
    put_share(shares, standing, x);
}

// The sum of one number of each of the first rows, in 64 bits, where it fits whatever the table has.
fn column(shares: &[u32], standing: usize, at: usize) -> u64
    requires { (standing ≤ max_connections) × (2 * standing ≤ length shares.now) × (at < 2) }
    ensures { result ≡ sum standing (λ c. get_or shares.now (2 * c + at) 0) }
{
    let mut total: u64 = 0;
    for c in 0..standing {
        total += shares[SHARE_WIDTH * c + at] as u64;
    }
    total
}

// The sum of all r.
pub fn units_of_all(shares: &[u32], standing: usize) -> u64
    requires { (shares_formed shares.now ≡ true) × (standing ≡ length (shares_in shares.now)) }
    ensures { result ≡ all_units (shares_in shares.now) }
{
    column(shares, standing, 0)
}

// The sum of all p.
pub fn places_of_all(shares: &[u32], standing: usize) -> u64
    requires { (shares_formed shares.now ≡ true) × (standing ≡ length (shares_in shares.now)) }
    ensures { result ≡ all_places (shares_in shares.now) }
{
    column(shares, standing, 1)
}

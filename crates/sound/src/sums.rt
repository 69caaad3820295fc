// The two numbers behind the rows of the table of connections, against the rows that they sum up.
ghost use Rattle.std.specs.Prelude.{◌≡◌, true};
ghost use Rattle.connections.specs.Members.{rows_formed, sums_formed};
ghost use Rattle.connections.specs.Closing.{one_more};

use connections::closing::{earliest_closed, first_charge, owners_up_to};
use limits::MAX_CONNECTIONS;

// One more than an eligibility, where there is one, else 0: in 64 bits, where one more than any fits.
fn number_for(first: Option<u32>) -> u64
    ensures { result ≡ one_more first }
{
    first.map_or(0, |e| u64::from(e) + 1)
}

// Both numbers are those of the rows.
pub(crate) fn sums_ok(members: &[u32]) -> bool
    requires { rows_formed members.now ≡ true }
    ensures { result ≡ sums_formed members.now }
{
    let owners = owners_up_to(members, MAX_CONNECTIONS);
    let first = number_for(earliest_closed(members, MAX_CONNECTIONS));
    (connections::used(members) == owners) & (u64::from(first_charge(members)) == first)
}

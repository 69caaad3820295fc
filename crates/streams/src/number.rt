// A number as text, in decimal digits.
ghost use Rattle.std.specs.Prelude.{◌≡◌, ◌<◌, ◌≤◌, length, take, drop};
ghost use Rattle.streams.specs.Moves.{IsPrefixLen, WritesNumber};
ghost use Rattle.streams.specs.Digits.{hex_digit_ascii, last_digits, IsDigitCount};

use crate::{WriteError, write_all};
use std::io::Write;

// Puts n's decimal digits at the front of a room of twenty, and tells how many there are.
// kept: what may not change, the clauses of `decimal`, which cannot fail: std's `write!` answers a `Result`, and no contract of it rules an `Err` out or tells what it leaves
pub fn decimal(n: u64, out: &mut [u8; 20]) -> usize
    ensures in_bounds { IsPrefixLen result out.new }
    ensures len { IsDigitCount 10 1 n result }
    ensures digits { take result out.new ≡ last_digits 10 result n }
    ensures rest { drop result out.new ≡ drop result out.old }
{
    let k = digit_count(n);
    write_digits(n, k, out);
    k
}

// Writes n as `decimal` puts it, and tells what `write_all` does.
pub fn print_decimal<W: Write>(to: &mut W, n: u64) -> Result<(), WriteError>
    ensures { WritesNumber (W.contents to.old) (W.contents to.new) result n }
{
    let mut text = [0u8; 20];
    let k = decimal(n, &mut text);
    write_all(to, &text[..k])
}

// How many decimal digits n takes.
fn digit_count(n: u64) -> usize
    ensures { IsDigitCount 10 1 n result }
{
    match n.checked_ilog10() {
        Some(log) => log as usize + 1,
        None => 1,
    }
}

// Puts the last k decimal digits of n at the front of a room.
fn write_digits(n: u64, k: usize, out: &mut [u8])
    requires { k ≤ length out.old }
    ensures digits { take k out.new ≡ last_digits 10 k n }
    ensures rest { drop k out.new ≡ drop k out.old }
{
    let mut rest = n;
    for i in (0..k).rev() {
        out[i] = digit_ascii(rest % 10);
        rest /= 10;
    }
}

fn digit_ascii(d: u64) -> u8
    requires { d < 10 }
    ensures { result ≡ hex_digit_ascii d }
{
    b'0' + d as u8
}

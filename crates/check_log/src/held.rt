// What the system tells of a descriptor that this program holds, in /proc/self/fdinfo.
ghost use Rattle.std.specs.Prelude.{ℕ, ◌≤◌, ◌<◌, ◌^◌, MatchOption};
ghost use Rattle.check_log.specs.Words.{NumberBehind};

use std::fs::File;
use std::io;
use std::io::{ErrorKind, Read};

// The flags of a descriptor that no read is allowed at: it is open for writing only, or as a mere place in the file system.
const NOT_READ: u64 = 0o10000001;

#[derive(Clone, Copy)]
pub(crate) struct Held {
    position: u64,
    flags: u64,
}

impl Held {
    // From the file of what the system tells: an error where it cannot be read or understood.
    pub(crate) fn read_at(rt: &HostRuntime, path: &str) -> io::Result<Held> {
        let mut bytes = [0u8; 256];
        let len = File::open(rt, path)?.read(&mut bytes)?;
        match str::from_utf8(&bytes[..len]) {
            Ok(told) => from_text(told).ok_or(io::Error::from(ErrorKind::InvalidData)),
            Err(_) => Err(io::Error::from(ErrorKind::InvalidData)),
        }
    }

    // How far the next read is from the file's beginning.
    pub(crate) fn position(&self) -> u64 {
        self.position
    }

    pub(crate) fn may_be_read(&self) -> bool {
        self.flags & NOT_READ == 0
    }
}

// The position stands there in decimal digits, and the flags in octal ones.
fn from_text(told: &str) -> Option<Held> {
    Some(Held {
        position: number_in(told, "pos:\t", 10)?,
        flags: number_in(told, "flags:\t", 8)?,
    })
}

// The number of the first line that begins with a name and goes on with a number.
fn number_in(told: &str, name: &str, radix: u32) -> Option<u64>
    requires lower_bound { 2 ≤ radix }
    requires upper_bound { radix ≤ 36 }
{
    told.lines()
        .find_map(|line| number_behind(line, name, radix))
}

// The number that a line gives behind a name, and nothing else.
fn number_behind(line: &str, name: &str, radix: u32) -> Option<u64>
    requires lower_bound { 2 ≤ radix }
    requires upper_bound { radix ≤ 36 }
    ensures { MatchOption result ((n : ℕ) → n < 2 ^ 64 → ¬ (NumberBehind radix name.now line.now n)) (λ n. NumberBehind radix name.now line.now n) }
{
    u64::from_str_radix(line.strip_prefix(name)?, radix).ok()
}

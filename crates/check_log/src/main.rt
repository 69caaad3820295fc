// Holds the log on descriptor 3 against the one that the rules give for the trace on standard input. It tells on standard output what it found, and on standard
// error what could not be read. Document 02, R-14.
#![tactic(auto)]

mod held; // held.rt: what the system tells of a descriptor
mod late; // late.rt: a descriptor's file, which its first read opens

ghost use Rattle.std.specs.Prelude.{◌≡◌};
ghost use Rattle.turns.specs.Words.{text};
ghost use Rattle.check_log.specs.Words.{Says, Complains};

use checker::{Check, Finding};
use late::Late;
use limits::{MEMBERS, NOTICES, PLACES};
use std::io::Write;
use steps::Lent;

// Hands to `write`, on standard output, the words told of a judgement, and behind those of a log that is not accepted the digits of the offset.
fn say<W: Write>(c: Check, words: &[u8], digits: &[u8], output: &mut W)
    requires { Says c.finding c.at words.now digits.now }
{
    let _ = streams::write_all(output, words);
    let _ = streams::write_all(output, digits);
    let _ = streams::write_all(output, b"\n");
}

// Hands to `write`, on standard error, what could not be read.
fn complain<W: Write>(c: Check, words: &[u8], errors: &mut W)
    requires { Complains c.finding words.now }
{
    let _ = streams::write_all(errors, words);
    let _ = streams::write_all(errors, b"\n");
}

// Tells what is found.
fn tell<O: Write, E: Write>(c: Check, output: &mut O, errors: &mut E) {
    let mut text = [0u8; 20];
    let k = streams::decimal(c.at, &mut text);
    match c.finding {
        None => {}
        Some(Finding::Accepted) => say(c, b"accepted", b"", output),
        Some(Finding::Differs) => say(c, b"differs at byte ", &text[..k], output),
        Some(Finding::TooLong) => say(c, b"too long at byte ", &text[..k], output),
        Some(Finding::EndsEarly) => say(c, b"ends early at byte ", &text[..k], output),
        Some(Finding::TraceFailed) => complain(c, b"check_log: reading the trace failed", errors),
        Some(Finding::LogFailed) => complain(c, b"check_log: reading the log failed", errors),
    }
}

// The path of the descriptor that the log is read from.
fn log_path() -> &'static str
    ensures { result.now ≡ text "/dev/fd/3" }
{
    "/dev/fd/3"
}

// The path of what the system tells of that descriptor.
fn info_path() -> &'static str
    ensures { result.now ≡ text "/proc/self/fdinfo/3" }
{
    "/proc/self/fdinfo/3"
}

fn main(rt: HostRuntime) {
    let mut places = [0u32; PLACES];
    let mut members = [0u32; MEMBERS];
    let mut notices = [0u32; NOTICES];
    let mut buf = streams::large_buffer();
    let mut out = streams::large_buffer();
    let mut log = streams::large_buffer();
    let mut t = Lent {
        members: &mut members,
        places: &mut places,
        notices: &mut notices,
    };
    let c = checker::check_all(
        &mut t,
        &mut buf,
        &mut out,
        &mut log,
        &mut rt.stdin(),
        &mut Late::new(&rt, log_path(), info_path()),
    );
    tell(c, &mut rt.stdout(), &mut rt.stderr());
}

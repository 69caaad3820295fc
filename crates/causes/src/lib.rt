// What the tables of verdicts of both disciplines ask alike, over plain numbers: each refusal by its name, with its number; the tests; a notice, taken or refused.
// Document 01, "Verdict numbers"; document 02, R-1 and R-13.
#![tactic(auto)]

mod refusals; // refusals.rt: the refusals, with their numbers

ghost use Rattle.std.specs.Prelude.{◌≡◌, true, cond, not, leb, eqb};
ghost use Rattle.rules.specs.Limits.{clock_end};
ghost use Rattle.rules.specs.Words.{within, first_number};
ghost use Rattle.tables.specs.Notices.{notices_in, notices_formed};
ghost use Rattle.causes.specs.Refusals.{verdict_of};
ghost use Rattle.causes.specs.Causes.{early_offer, of_a_notice, of_a_tick};
ghost use Rattle.causes.specs.Notices.{notice_verdict, Takes};

use limits::{CLOCK_END, MAX_NOTICES, NOTICE_NUMBER};
pub use refusals::Refusal;
use rules::Packet;

// ---- the tests

// The clock has ended.
pub fn ended(clock: u32) -> bool
    ensures { result ≡ leb clock_end clock }
{
    CLOCK_END <= clock
}

// A length that is not from 1 to the largest.
pub fn misfits(largest: u32, len: u32) -> bool
    ensures { result ≡ not (within 1 largest len) }
{
    !(1..=largest).contains(&len)
}

// What a row of connection a counts among those of connection b.
pub fn one_if_same(a: u32, b: u32) -> u64
    ensures { result ≡ cond (eqb a b) 1 0 }
{
    (a == b) as u64
}

// ---- the calls; `unset` says that no link is set

// What speaks against an offer before the rows are walked; `heard` says that its connection hears it.
pub fn early_offer(unset: bool, heard: bool, largest: u32, len: u32) -> Result<(), Refusal>
    ensures { verdict_of result ≡ first_number (early_offer unset heard largest len) }
{
    if unset {
        return Err(Refusal::NoLink);
    }
    if !heard {
        return Err(Refusal::NoConnection);
    }
    if misfits(largest, len) {
        return Err(Refusal::Length);
    }
    Ok(())
}

// What speaks against a notice while `waiting` others wait.
fn of_notice(unset: bool, largest: u32, clock: u32, waiting: usize, len: u32) -> Result<(), Refusal>
    ensures { verdict_of result ≡ first_number (of_a_notice unset largest clock waiting len) }
{
    if unset {
        return Err(Refusal::NoLink);
    }
    if misfits(largest, len) {
        return Err(Refusal::Length);
    }
    if ended(clock) {
        return Err(Refusal::ClockEnded);
    }
    if MAX_NOTICES <= waiting {
        return Err(Refusal::NoticesFull);
    }
    Ok(())
}

// What speaks against a tick.
pub fn of_tick(unset: bool, clock: u32) -> Result<(), Refusal>
    ensures { verdict_of result ≡ first_number (of_a_tick unset clock) }
{
    if unset {
        return Err(Refusal::NoLink);
    }
    if ended(clock) {
        return Err(Refusal::ClockEnded);
    }
    Ok(())
}

// ---- a notice, whatever the discipline

// A notice is refused, or waits behind the others; it is eligible on arrival.
pub fn take_notice(
    unset: bool,
    largest: u32,
    clock: u32,
    notices: &mut [u32],
    len: u32,
    tag: u32,
) -> Result<u32, Refusal>
    requires { notices_formed notices.old ≡ true }
    ensures { Takes (notice_verdict unset largest clock (notices_in notices.old) len) clock len tag notices.old result notices.new }
{
    let waiting = tables::count(notices);
    of_notice(unset, largest, clock, waiting, len)?;
    tables::append(
        notices,
        waiting,
        Packet {
            connection: NOTICE_NUMBER,
            len,
            tag,
            arrival: clock,
            eligibility: clock,
        },
    );
    Ok(clock)
}

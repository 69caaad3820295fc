// What a call answers, whatever the discipline keeps: with no packet, of a tick that is done, and the same with something else kept.
ghost use Rattle.std.specs.Prelude.{◌≡◌, ◌<◌};
ghost use Rattle.rules.specs.Limits.{clock_end};
ghost use Rattle.line.specs.Told.{refusal, passed_on, told_keeping};

use super::{Hub, Sent, Told};
use rules::Short;

// An answer with no packet, and nothing short.
pub fn say<H: Copy>(kept: H, verdict: u32, number: u32) -> Told<H>
    ensures { result ≡ refusal kept verdict number }
{
    Told {
        verdict,
        number,
        short: Short { level: 0, units: 0 },
        departed: None,
        kept,
    }
}

// Step 3: the clock moves on. The answer is the departed packet or nothing.
pub fn pass<L: Copy>(h: Hub<L>, x: Sent) -> Told<Hub<L>>
    requires { h.clock < clock_end }
    ensures { result ≡ passed_on h x }
{
    let later = Hub {
        clock: h.clock + 1,
        wire: x.wire,
        ..h
    };
    Told {
        departed: x.departed,
        ..say(later, 0, 0)
    }
}

// The same answer, with something else kept.
pub fn keeping<H: Copy, K: Copy>(told: Told<H>, kept: K) -> Told<K>
    ensures { result ≡ told_keeping told kept }
{
    Told {
        verdict: told.verdict,
        number: told.number,
        short: told.short,
        departed: told.departed,
        kept,
    }
}

//! How long a link rests where nothing waits, so that what comes meanwhile is taken at one waking.

ghost use Rattle.std.specs.Prelude.{◌≡◌, ◌≤◌, ◌<◌, ◌*◌};
ghost use Rattle.std.specs.Duration.{as_nanos};
ghost use Rattle.sg_edge.specs.Paces.{period_of};

use std::time::{Clock, Duration, Instant};

/// How many microseconds lie between two rests at most, and so how many one takes at most.
const PERIOD_MOST: u64 = 800;

/// So many datagrams come from one rest to the next.
const DATAGRAMS_EACH: u64 = 32;

/// Where the datagrams come farther apart than this many microseconds, there is no rest.
const GAP_MOST: u64 = 250;

/// For so many microseconds they are counted, before the period is set anew.
const COUNTED_FOR: u64 = 4000;

/// Microseconds from one rest to the next, where so many datagrams came in so many microseconds.
fn period_of(came: u32, micros: u64) -> u64
    ensures value { result ≡ period_of came micros }
    ensures most { result ≤ 800 }
    ensures few { came * 250 < micros → result ≡ 0 }
{
    let came = u64::from(came);
    if came == 0 || came * GAP_MOST < micros {
        return 0;
    }
    (micros * DATAGRAMS_EACH / came).min(PERIOD_MOST)
}

/// Microseconds from a moment to another one; as many as can be where one isn't known.
fn micros_since(earlier: Option<Instant>, now: Option<Instant>) -> u64 {
    match (earlier, now) {
        (Some(earlier), Some(now)) => {
            u64::try_from(now.duration_since(earlier).as_micros()).unwrap_or(u64::MAX)
        }
        _ => u64::MAX,
    }
}

/// How many datagrams came since a moment, how many microseconds those before made the period, and when the last rest
/// was to end.
#[derive(Drop)]
pub(crate) struct Pace {
    since: Option<Instant>,
    came: u32,
    period: u64,
    rested: Option<Instant>,
    ghost most: { period ≤ 800 },
}

impl Pace {
    /// No rest, up to the first datagrams.
    pub(crate) fn new() -> Pace
        ensures period { result.period ≡ 0 }
    {
        Pace {
            since: None,
            came: 0,
            period: 0,
            rested: None,
        }
    }

    /// A datagram came.
    pub(crate) fn count(&mut self)
        ensures period { self.new.period ≡ self.old.period }
    {
        self.came = self.came.saturating_add(1);
    }

    /// How long to rest now: what is left of the period since the last rest, and nothing where the clock can't be read.
    /// The period is by what came in the last few milliseconds.
    pub(crate) fn rest(&mut self, clock: &impl Clock) -> Duration
        ensures period { as_nanos result ≤ 1000 * self.new.period }
        ensures most { as_nanos result ≤ 800_000 }
    {
        let now = Instant::now(clock).ok();
        let micros = micros_since(self.since, now);
        if micros >= COUNTED_FOR {
            self.period = period_of(self.came, micros);
            self.since = now;
            self.came = 0;
        }
        let left = self.period.saturating_sub(micros_since(self.rested, now));
        let rest = Duration::from_micros(left);
        self.rested = match now {
            Some(now) => now.checked_add(rest),
            None => None,
        };
        rest
    }
}

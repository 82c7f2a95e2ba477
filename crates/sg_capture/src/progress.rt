//! How far a capture is played.

ghost use Rattle.std.specs.Prelude.{◌≡◌, ◌≤◌, ◌<◌, ◌+◌, ◌^◌, max, Some};
ghost use Rattle.sg_capture.specs.Meeting.{first_of};
ghost use Rattle.sg_trace.specs.Captured.{moment_in};

use sg_base::TICK_MOST;

/// How far a capture is played: the script's last moment, the first record's, where there was one, the greatest moment
/// so far, and the next record's number, from 1.
#[derive(Clone, Copy)]
pub struct Progress {
    pub last: u64,
    pub first: Option<u64>,
    pub top: u64,
    pub number: u64,
}

impl Progress {
    /// The first record's moment, where this one belongs to the next.
    fn first_of(self, millis: u64) -> u64
        ensures { result ≡ first_of self.first millis }
    {
        match self.first {
            Some(first) => first,
            None => millis,
        }
    }

    /// The moment of the next record: as long behind the script's last moment as it is behind the first record.
    pub(crate) fn moment_of(self, millis: u64) -> u64
        ensures is { result ≡ moment_in self.last (first_of self.first millis) millis }
        ensures most { result ≤ 2085978495999 }
    {
        let passed = millis.saturating_sub(self.first_of(millis));
        self.last.saturating_add(passed).min(TICK_MOST)
    }

    /// Behind the next record.
    pub(crate) fn after(self, millis: u64) -> Progress
        requires { self.number ≤ 2 ^ 31 }
        ensures { result ≡ record { last = self.last; first = Some (first_of self.first millis); top = max self.top (moment_in self.last (first_of self.first millis) millis); number = self.number + 1 } }
    {
        Progress {
            last: self.last,
            first: Some(self.first_of(millis)),
            top: self.top.max(self.moment_of(millis)),
            number: self.number + 1,
        }
    }
}

//! What a long demonstration shows while it runs.

use sg_lanes::Gate;
use std::io::IsTerminal;
use std::sync::atomic::{AtomicU64, Ordering};

/// The place that is entered in batches of many calls alone: of this many and one more.
const OF_MANY: usize = 127;

/// How many batches pass between two lines.
const BETWEEN: u64 = 100;

/// A gate that counts the batches of many calls, and says on standard error how many there were, a line for each
/// hundred of them, where it was asked to.
#[derive(Drop)]
pub struct Progress<'a> {
    rt: &'a HostRuntime,
    is_shown: bool,
    batches: AtomicU64,
}

impl<'a> Progress<'a> {
    /// A gate that shows progress where the command is `demo` and standard error is a terminal. Another command
    /// writes lines of its own while it runs.
    pub fn make(rt: &'a HostRuntime, words: &[String]) -> Progress<'a> {
        let is_demo = match words.first() {
            Some(word) => word.as_str() == "demo",
            None => false,
        };
        Progress {
            rt,
            is_shown: is_demo && rt.stderr().is_terminal(),
            batches: AtomicU64::new(0),
        }
    }
}

impl<'a> Gate for Progress<'a> {
    fn enter(&self, lane: usize) {
        if self.is_shown && lane == OF_MANY {
            let count = self.batches.fetch_add(1, Ordering::SeqCst).wrapping_add(1);
            if count % BETWEEN == 0 {
                let _ = eprintln!(self.rt; "srtpgw: {count} batches of datagrams handled");
            }
        }
    }
}

//! The outcomes that a signal tells.

use arrayvec::ArrayVec;
use sg_base::CALLS_MOST;
use sg_outcome::Outcome;

/// Up to 256 outcomes, in order.
pub type Outcomes = ArrayVec<Outcome, CALLS_MOST>;

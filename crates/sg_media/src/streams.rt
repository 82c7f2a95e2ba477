//! The streams of a side.

ghost use Rattle.std.specs.Prelude.{◌≡◌, ◌<◌, List, [], ◌∷◌, ◌++◌, length, map, slice_get, Some, MatchOption, false};
ghost use Rattle.sg_replay.specs.Freshness.{is_in};
ghost use Rattle.sg_session.specs.Session.{Done, is_admitted, sources};
ghost use Rattle.sg_media.specs.Standing.{source_of, IsAt};

use arrayvec::ArrayVec;
use sg_base::STREAMS_MOST;
use sg_keys::Admit;
use sg_states::Stream;

/// The streams of a side, one for each source, in the order in which the sources came. The sources stand in a row of
/// their own too, so that looking for one touches four lines of a cache and not one for each stream.
#[derive(Drop)]
pub(crate) struct Streams {
    pub(crate) row: ArrayVec<u32, STREAMS_MOST>,
    pub(crate) list: ArrayVec<Stream, STREAMS_MOST>,
}

impl Streams {
    /// No stream.
    #[inline(always)]
    pub(crate) fn new() -> Streams
        ensures list { result.list.items ≡ [] }
        ensures row { result.row.items ≡ [] }
    {
        Streams {
            list: ArrayVec::new(),
            row: ArrayVec::new(),
        }
    }

    /// The position of the stream of a source.
    #[inline(always)]
    pub(crate) fn find(&self, ssrc: u32) -> Option<usize>
        requires { self.now.row.items ≡ map source_of self.now.list.items }
        ensures { MatchOption result (is_in (map source_of self.now.list.items) ssrc ≡ false) (IsAt self.now.list.items ssrc) }
    {
        position_in(self.row.as_slice(), ssrc)
    }

    /// One stream more, of a source that has none.
    pub(crate) fn push(&mut self, stream: Stream)
        requires room { length self.old.list.items < 64 }
        requires row { self.old.row.items ≡ map source_of self.old.list.items }
        ensures list { self.new.list.items ≡ self.old.list.items ++ stream ∷ [] }
        ensures row { self.new.row.items ≡ map source_of self.new.list.items }
    {
        self.row.push(stream.ssrc());
        self.list.push(stream);
    }
}

// The position of a source in a row of them.
fn position_in(row: &[u32], ssrc: u32) -> Option<usize>
    ensures { MatchOption result (is_in row.now ssrc ≡ false) (λ at. slice_get row.now at ≡ Some ssrc) }
{
    for (at, source) in row.iter().enumerate() {
        if *source == ssrc {
            return Some(at);
        }
    }
    None
}

/// Whether a source is admitted, by the row of those that are there.
pub(crate) fn admits(admit: Admit, row: &[u32], ssrc: u32) -> bool
    ensures { (done : List Done) → row.now ≡ sources done → result ≡ is_admitted admit done ssrc }
{
    match admit {
        Admit::Any => true,
        Admit::One(own) => own == ssrc,
        Admit::FirstSeen => match row.first() {
            None => true,
            Some(first) => *first == ssrc,
        },
    }
}

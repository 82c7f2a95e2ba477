//! A description and its edits.

use crate::medium::{Lines, Media};
use sg_base::NoMemory;

/// A session description (RFC 4566): the lines before the first medium, and the media.
#[derive(Drop)]
pub struct Sdp {
    pub session: Lines,
    pub media: Media,
}

impl Sdp {
    ghost use Rattle.std.specs.Prelude.{◌≡◌, ◌<◌, length, OnOk, OnErr};
    ghost use Rattle.sg_sdp.specs.Parts.{with_last_line, with_media_line, with_session_line};

    /// Puts a copy of the line last in the session part. No address changes, whatever the line is.
    pub fn add_session_line(&mut self, line: &[u8]) -> Result<(), NoMemory>
        ensures ok { OnOk result (self.new ≡ with_session_line line.now self.old) }
        ensures err { OnErr result (self.new ≡ self.old) }
        ensures count { length self.new.media ≡ length self.old.media }
    {
        self.session.push_copy(line)
    }

    /// Puts a copy of the line last in that medium. Media count from 0. No address changes, whatever the
    /// line is.
    pub fn add_media_line(&mut self, medium: usize, line: &[u8]) -> Result<(), NoMemory>
        requires { medium < length self.old.media }
        ensures ok { OnOk result (self.new ≡ with_media_line medium line.now self.old) }
        ensures err { OnErr result (self.new ≡ self.old) }
        ensures count { length self.new.media ≡ length self.old.media }
    {
        self.media.as_mut_slice()[medium].lines.push_copy(line)
    }

    // Puts a copy of the line last in the part that is open: the last medium, or else the session part.
    #[tactic(auto, unfolding(crate::specs::Parts::with_last_line))]
    pub(crate) fn add_last_line(&mut self, line: &[u8]) -> Result<(), NoMemory>
        ensures { OnOk result (self.new ≡ with_last_line line.now self.old) }
    {
        let count = self.media.len();
        if count == 0 {
            self.add_session_line(line)
        } else {
            self.add_media_line(count - 1, line)
        }
    }
}

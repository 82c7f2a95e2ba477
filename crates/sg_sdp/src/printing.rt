//! The one printed spelling.

ghost use Rattle.std.specs.Prelude.{◌≡◌, ◌++◌, OnOk, IfOk};
ghost use Rattle.std.specs.List.{flat_map};
ghost use Rattle.sg_sdp.specs.Descriptions.{ended, medium_line, medium_lines, spelling};

use crate::medium::Medium;
use crate::sdp::Sdp;
use itoa::Buffer;
use sg_base::{NoMemory, Octets};
use std::alloc::Global;

const LINE_END: &[u8] = b"\r\n";

// Lines, each with its end.
fn put_lines(out: &mut Vec<u8>, lines: &[Octets]) -> Result<(), NoMemory>
    ensures { OnOk result (out.new.items ≡ out.old.items ++ flat_map ended lines.now) }
{
    for line in lines {
        out.extend_from_slice(line.as_slice())?;
        out.extend_from_slice(LINE_END)?;
    }
    Ok(())
}

// The `m=` line of a medium.
fn put_head(out: &mut Vec<u8>, medium: &Medium) -> Result<(), NoMemory>
    ensures { OnOk result (out.new.items ≡ out.old.items ++ ended (medium_line medium.now)) }
{
    out.extend_from_slice(b"m=")?;
    out.extend_from_slice(medium.word.as_slice())?;
    out.push(b' ')?;
    out.extend_from_slice(Buffer::new().format(medium.port).as_bytes())?;
    out.push(b' ')?;
    out.extend_from_slice(medium.proto.as_slice())?;
    out.push(b' ')?;
    out.extend_from_slice(medium.formats.as_slice())?;
    out.extend_from_slice(LINE_END)?;
    Ok(())
}

fn put_media(out: &mut Vec<u8>, media: &[Medium]) -> Result<(), NoMemory>
    ensures { OnOk result (out.new.items ≡ out.old.items ++ flat_map ended (flat_map medium_lines media.now)) }
{
    for medium in media {
        put_head(out, medium)?;
        put_lines(out, medium.lines.as_slice())?;
    }
    Ok(())
}

impl Sdp {
    /// The one printed spelling: all lines in place, each ended by CR LF.
    pub fn print(&self, alloc: Global) -> Result<Octets, NoMemory>
        ensures { IfOk result (λ o. o ≡ spelling self.now) }
    {
        let mut out = Vec::new(alloc);
        put_lines(&mut out, self.session.as_slice())?;
        put_media(&mut out, self.media.as_slice())?;
        Ok(Octets::from_vec(out))
    }
}
